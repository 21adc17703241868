// A packed list, read record by record.
ghost use Rattle.std.specs.Prelude.{◌≡◌, ◌≤◌, length};
ghost use Rattle.std.specs.Iterator.{YieldsFirstBy, item_count};
ghost use Rattle.packed_layout.specs.Layout.{read_all};
ghost use Rattle.packed_rows.specs.Lists.{WellFormed, entries_of};
ghost use Rattle.packed_rows.specs.Entries.{outcomes, unread, gathered, outcome_in, readable, coming, entry_in};

use packed::read::read_record;
use packed::view::RowView;
use packed_layout::faults::FaultAt;

// The records of a list one by one: a row and where its record begins, or the fault of a record
// that is refused, after which nothing comes.
#[derive(Drop)]
pub struct Records<'a> {
    bytes: &'a [u8],
    offset: usize,
}

impl<'a> Records<'a> {
    // The records of all the bytes, which make the list that the layout reads.
    pub fn over(bytes: &'a [u8]) -> Records<'a>
        ensures all { unread result ≡ outcomes bytes.now 0 }
        ensures list { gathered (unread result) ≡ read_all bytes.now }
        ensures few { length (unread result) ≤ length bytes.now }
    {
        Records { bytes, offset: 0 }
    }
}

impl<'a> Iterator for Records<'a> {
    type Item = Result<(usize, RowView<'a>), FaultAt>;

    ghost next_gives = { YieldsFirstBy outcome_in unread };

    ghost remaining = { item_count unread };

    fn next(&mut self) -> Option<Result<(usize, RowView<'a>), FaultAt>> {
        let offset = self.offset;
        match read_record(self.bytes, offset).transpose()? {
            Ok((row, next)) => {
                self.offset = next;
                Some(Ok((offset, row)))
            }
            Err(fault) => {
                self.offset = self.bytes.len();
                Some(Err(fault))
            }
        }
    }
}

// The rows of a list one by one, each with the offset of its record, up to the end or the first
// record that is refused.
#[derive(Drop)]
pub struct Entries<'a> {
    records: Records<'a>,
}

impl<'a> Entries<'a> {
    // The rows of all the bytes: those of the list, where no record of it is refused.
    pub fn over(bytes: &'a [u8]) -> Entries<'a>
        ensures all { coming result ≡ readable bytes.now 0 }
        ensures list { WellFormed bytes.now → coming result ≡ entries_of (read_all bytes.now) }
        ensures few { length (coming result) ≤ length bytes.now }
    {
        Entries {
            records: Records::over(bytes),
        }
    }
}

impl<'a> Iterator for Entries<'a> {
    type Item = (usize, RowView<'a>);

    ghost next_gives = { YieldsFirstBy entry_in coming };

    ghost remaining = { item_count coming };

    fn next(&mut self) -> Option<(usize, RowView<'a>)> {
        self.records.next()?.ok()
    }
}
