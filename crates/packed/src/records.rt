// Import records that lie one after another.
ghost use Rattle.std.specs.Prelude.{◌≡◌, length};
ghost use Rattle.std.specs.Iterator.{YieldsFirst, item_count};
ghost use Rattle.std.specs.List.{slice_get};
ghost use Rattle.std.specs.Option.{option_map};
ghost use Rattle.packed_layout.specs.Codec.{times, read_whole};
ghost use Rattle.packed_layout.specs.Layout.{import_record};
ghost use Rattle.packed.specs.Views.{imports_in};

use crate::fields::take_import;
use crate::view::Imports;
use packed_layout::sizes::IMPORT_LEN;
use rows::ImportRecord;

impl<'a> Imports<'a> {
    // The bytes as so many import records, if that is what they are.
    pub fn read(count: u16, bytes: &'a [u8]) -> Option<Imports<'a>>
        ensures { option_map imports_in result ≡ read_whole (times import_record count) bytes.now }
    {
        let mut rest = bytes;
        // No `try_fold`: it is no plainer, since its closure takes the pair of each answer apart and wraps the rest again.
        for _i in 0..count {
            (_, rest) = take_import(rest)?;
        }
        if !rest.is_empty() {
            return None;
        }
        Some(Imports { count, bytes })
    }

    // How many records there are.
    pub fn len(&self) -> usize
        ensures { result ≡ length (imports_in self.now) }
    {
        self.count.into()
    }

    // The import record at a place.
    pub fn get(&self, place: usize) -> Option<ImportRecord>
        ensures { result ≡ slice_get (imports_in self.now) place }
    {
        // By its place at once: `nth` would go over the records before it.
        if place >= usize::from(self.count) {
            return None;
        }
        let (record, _) = take_import(&self.bytes[IMPORT_LEN * place..])?;
        Some(record)
    }
}

impl Iterator for Imports<'_> {
    type Item = ImportRecord;

    ghost next_gives = { YieldsFirst imports_in };

    ghost remaining = { item_count imports_in };

    fn next(&mut self) -> Option<ImportRecord> {
        let (record, rest) = take_import(self.bytes)?;
        *self = Imports {
            count: self.count - 1,
            bytes: rest,
        };
        Some(record)
    }
}
