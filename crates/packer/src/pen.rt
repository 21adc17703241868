// Writing the parts of a record into a buffer.
ghost use Rattle.std.specs.Prelude.{◌≡◌, ◌≤◌, length};
ghost use Rattle.packed_layout.specs.Codec.{bytes, Bytes};
ghost use Rattle.packed_layout.specs.Records.{header};
ghost use Rattle.packed_layout.specs.Layout.{name, import_record, import_records, target_code};
ghost use Rattle.packer.specs.Put.{AtFront, Put, Room};

use packed_layout::codes::Coded;
use packed_layout::numbers::Number;
use packed_layout::sizes::{ROW, UNRESOLVED};
use rows::ImportRecord;

// A target's number, or what stands for one that was not resolved.
fn target_code(target: Option<u16>) -> u16
    ensures { result ≡ target_code target }
{
    target.unwrap_or(UNRESOLVED)
}

// A pen writes into a buffer, part after part, and stands where the next one goes.
#[derive(Drop)]
pub(crate) struct Pen<'b> {
    buffer: &'b mut [u8],
    pub(crate) at: usize,
}

// That there is room is a premise of each method: who measured the row knows it, and a test here would be a fault that cannot come.
impl<'b> Pen<'b> {
    // A pen at the front of a buffer.
    pub(crate) fn new(buffer: &'b mut [u8]) -> Self
        ensures front { AtFront buffer.old result }
        ensures same { result.buffer.ghost_name ≡ buffer.entry.ghost_name }
    {
        Pen { buffer, at: 0 }
    }

    #[tactic(auto, using(std::proofs::lemmas::Slice::overwrites))]
    fn put(&mut self, part: &[u8])
        requires { Room self.old (length part.now) }
        ensures { Put part.now self.old self.new }
    {
        let end = self.at + part.len();
        self.buffer[self.at..end].copy_from_slice(part);
        self.at = end;
    }

    // A number, its lowest byte first.
    pub(crate) fn put_number<const W: usize, N: Number<W>>(&mut self, number: N)
        requires { Room self.old W }
        ensures { Put (bytes W (N.number number)) self.old self.new }
    {
        self.put(&number.to_bytes());
    }

    // A value as its code of one byte.
    pub(crate) fn put_coded<C: Coded>(&mut self, coded: C)
        requires { Room self.old 1 }
        ensures { Put (bytes 1 (C.code coded)) self.old self.new }
    {
        self.put_number(coded.code());
    }

    // What stands before a row's payload: its size and its kind. The casts here and below lose nothing, as the clauses say, and
    // `try_from` would bring in a fault that cannot come.
    pub(crate) fn put_header(&mut self, size: usize)
        requires short { size ≤ 32768 }
        requires room { Room self.old 6 }
        ensures { Put (header.write (size, 1)) self.old self.new }
    {
        self.put_number(size as u32);
        self.put_number(ROW);
    }

    // An id or a stable id, behind its length.
    pub(crate) fn put_name(&mut self, id: &[u8])
        requires short { length id.now ≤ 1024 }
        requires room { Room self.old (length (name.write id.now)) }
        ensures written { Put (name.write id.now) self.old self.new }
        ensures made { Bytes id.now }
    {
        self.put_number(id.len() as u16);
        self.put(id);
    }

    // An import record: its kind and its target.
    fn put_import(&mut self, import: &ImportRecord)
        requires { Room self.old 3 }
        ensures { Put (import_record.write import.now) self.old self.new }
    {
        self.put_coded(import.kind);
        self.put_number(target_code(import.target));
    }

    // The import records, behind their number.
    pub(crate) fn put_imports(&mut self, records: &[ImportRecord])
        requires few { length records.now ≤ 1024 }
        requires room { Room self.old (length (import_records.write records.now)) }
        ensures { Put (import_records.write records.now) self.old self.new }
    {
        self.put_number(records.len() as u16);
        for record in records {
            self.put_import(record);
        }
    }
}
