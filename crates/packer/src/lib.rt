// Writing one numbered row as a packed record.
#![tactic(auto)]

ghost use Rattle.std.specs.Prelude.{◌≡◌, ◌≤◌, false, length, MatchResult, Some};
ghost use Rattle.packed_layout.specs.Layout.{head, head_of};
ghost use Rattle.packer.specs.Packs.{meant, name?, resolved?, all_resolved?, fits?, packs, fault_text, ReadBack, Measured, Typed, FitIsTested};
ghost use Rattle.packer.specs.Put.{Put, Room};

use crate::pen::Pen;
use packed_layout::allowed::is_allowed;
use packed_layout::sizes::{HEADER_LEN, IMPORT_LEN, LONGEST_NAME, MOST_IMPORTS, UNRESOLVED};
use rows::{Facts, ImportRecord};
use std::fmt;

mod pen;

// A row to be packed.
#[derive(Clone, Copy)]
pub struct Row<'a> {
    pub number: u16,
    pub facts: Facts,
    pub id: &'a [u8],
    pub stable_id: &'a [u8],
    pub records: &'a [ImportRecord],
}

// Why a row is not packed: it does not fit the layout, or the buffer is shorter than its record.
#[derive(Clone, Copy, PartialEq, Eq, Debug)]
pub enum PackFault {
    Unfit,
    Short { wanted: usize },
}

impl fmt::Display for PackFault {
    ghost output = { λ fault. Some (fault_text fault) };

    fn fmt<W: fmt::Write>(&self, f: &mut fmt::Formatter<W>) -> fmt::Result {
        match *self {
            PackFault::Unfit => write!(f, "the row does not fit the layout"),
            PackFault::Short { wanted } => write!(f, "the page has no room for {wanted} bytes"),
        }
    }
}

impl std::error::Error for PackFault {}

// A payload but for the names and the import records: the other fields, and the three lengths before those.
const FIXED_LEN: usize = 19;

// An id or a stable id has 1 to 1,024 bytes.
fn is_name(bytes: &[u8]) -> bool
    ensures { result ≡ name? bytes.now }
{
    (1..=usize::from(LONGEST_NAME)).contains(&bytes.len())
}

// A target is below the number that stands for an unresolved import.
fn is_resolved(target: Option<u16>) -> bool
    ensures { result ≡ resolved? target }
{
    target.is_none_or(|row| row < UNRESOLVED)
}

// So is each target.
fn are_resolved(records: &[ImportRecord]) -> bool
    ensures { result ≡ all_resolved? records.now }
{
    records.iter().all(|record| is_resolved(record.target))
}

impl Row<'_> {
    // Whether the row is within the limits of the layout.
    fn is_fit(&self) -> bool
        ensures { result ≡ fits? (meant self.now) }
    {
        is_name(self.id)
            && is_name(self.stable_id)
            && self.records.len() <= usize::from(MOST_IMPORTS)
            && are_resolved(self.records)
            && is_allowed(self.facts, self.records.len())
    }

    // The length of the payload, if the row is within the limits.
    fn payload_len(&self) -> Result<usize, PackFault>
        ensures { MatchResult result (Measured (meant self.now)) (λ fault. (fault ≡ PackFault.Unfit) × (fits? (meant self.now) ≡ false)) }
    {
        if self.is_fit() {
            Ok(FIXED_LEN + self.id.len() + self.stable_id.len() + IMPORT_LEN * self.records.len())
        } else {
            Err(PackFault::Unfit)
        }
    }

    // The fields before the import records.
    fn put_head(&self, pen: &mut Pen<'_>)
        requires id { length self.now.id.now ≤ 1024 }
        requires stable { length self.now.stable_id.now ≤ 1024 }
        requires room { Room pen.old (length (head.write (head_of (meant self.now)))) }
        ensures written { Put (head.write (head_of (meant self.now))) pen.old pen.new }
        ensures typed { Typed (meant self.now) }
    {
        pen.put_number(self.number);
        pen.put_coded(self.facts.sort);
        pen.put_coded(self.facts.flags);
        pen.put_coded(self.facts.exports);
        pen.put_number(self.facts.mark);
        pen.put_name(self.id);
        pen.put_name(self.stable_id);
    }

    // Writes the row's record to the front of the buffer, and answers its length.
    #[tactic(auto, using(crate::proofs::Fitting::fit_is_tested))]
    pub fn pack(&self, buffer: &mut [u8]) -> Result<usize, PackFault>
        ensures written { (result, buffer.new) ≡ packs (meant self.now) buffer.old }
        ensures told { ReadBack (meant self.now) buffer.new result }
        ensures exact { FitIsTested }
    {
        let size = self.payload_len()?;
        let wanted = HEADER_LEN + size;
        if buffer.len() < wanted {
            return Err(PackFault::Short { wanted });
        }
        let mut pen = Pen::new(buffer);
        pen.put_header(size);
        self.put_head(&mut pen);
        pen.put_imports(self.records);
        Ok(pen.at)
    }
}
