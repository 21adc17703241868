// The rows of a packed list, by their place in it.
ghost use Rattle.std.specs.Prelude.{◌≡◌, length, vec_capacity};
ghost use Rattle.std.specs.Option.{option_map};
ghost use Rattle.std.specs.List.{slice_get};
ghost use Rattle.packed_layout.specs.Layout.{read_all};
ghost use Rattle.packed_rows.specs.Lists.{row_count};
ghost use Rattle.packed_rows.specs.Entries.{coming};
ghost use Rattle.packed.specs.Views.{shown};
ghost use Rattle.packed_rows.specs.Opened.{rows_in, numbered, opened, opened_as, HandedBack, Noted};

use crate::entries::{Entries, Records};
use crate::{OpenFault, PackedRows, Unopened};
use packed::read::glance_at;
use packed::view::{Imports, RowView};
use packed_layout::faults::RowFault;

// How many rows a list has.
pub fn count_rows(bytes: &[u8]) -> Result<usize, RowFault>
    ensures { result ≡ row_count (read_all bytes.now) }
{
    let mut count = 0;
    for record in Records::over(bytes) {
        record?;
        count += 1;
    }
    Ok(count)
}

// Notes where the records of a list begin, in the places handed in.
fn note_places(bytes: &[u8], places: &mut Vec<usize>) -> Result<(), OpenFault>
    ensures answer { Noted (vec_capacity places.old) bytes.now places.new.items result }
    ensures sized { vec_capacity places.new ≡ vec_capacity places.old }
{
    places.clear();
    for record in Records::over(bytes) {
        let (offset, _) = record?;
        if places.len() >= places.capacity() {
            let wanted = count_rows(bytes)?;
            return Err(OpenFault::Short { wanted });
        }
        places.push_reserved(offset);
    }
    Ok(())
}

impl<'a> PackedRows<'a> {
    // Opens a list, given places for the offsets of its records.
    pub fn open(bytes: &'a [u8], mut places: Vec<usize>) -> Result<PackedRows<'a>, Unopened>
        ensures answer { opened_as result ≡ opened (vec_capacity places) (read_all bytes.now) }
        ensures memory { HandedBack (vec_capacity places) result }
    {
        match note_places(bytes, &mut places) {
            Ok(()) => Ok(PackedRows { bytes, places }),
            Err(cause) => {
                places.clear();
                Err(Unopened { cause, places })
            }
        }
    }

    pub fn len(&self) -> usize
        ensures { result ≡ length (rows_in self.now) }
    {
        self.places.len()
    }

    // Where the k-th record begins.
    fn place(&self, k: usize) -> Option<usize>
        ensures { result ≡ slice_get self.now.places.items k }
    {
        self.places.get(k).copied()
    }

    // The row in the k-th record. Its import records are not looked at.
    pub fn row(&self, k: usize) -> Option<RowView<'a>>
        ensures { option_map shown result ≡ option_map numbered (slice_get (rows_in self.now) k) }
    {
        let outline = glance_at(self.bytes, self.place(k)?)?;
        let imports = Imports {
            count: outline.count,
            bytes: outline.imports,
        };
        Some(RowView {
            head: outline.head,
            imports,
        })
    }

    // The rows in the order of their records, each with the offset of its record.
    pub fn entries(&self) -> Entries<'a>
        ensures { coming result ≡ rows_in self.now }
    {
        Entries::over(self.bytes)
    }
}
