// What a side of the table does: it shows its rows, and grows by a row.
ghost use Rattle.std.specs.Prelude.{◌≡◌, ◌-◌, length, IfOk};
ghost use Rattle.std.specs.Iterator.{UpTo};
ghost use Rattle.std.specs.Iterator.Runs.{WholeRun};
ghost use Rattle.std.specs.List.{slice_get};
ghost use Rattle.packed.specs.Views.{imports_in};
ghost use Rattle.row_store.specs.Cuts.{cut};
ghost use Rattle.row_store.specs.Views.{viewed};
ghost use Rattle.row_store.specs.Filled.{HasRoom};
ghost use Rattle.row_store.specs.Sides.{rows_in, EmptySide};
ghost use Rattle.row_store.specs.Heads.{with_row};

use crate::graph::{TableView, head_at, part};
use crate::reserved::Reserved;
use crate::{Head, Names, Side};
use packed::view::RowView;
use rows::{Facts, ImportRecord};
use std::alloc::{AllocError, Global};

impl Side {
    // A side with no rows, that may have so many rows and import records.
    pub(crate) fn reserve(heap: Global, rows: usize, records: usize) -> Result<Side, AllocError>
        ensures { IfOk result (λ s. EmptySide rows records s) }
    {
        let heads = Reserved::new(heap, rows)?;
        let records = Reserved::new(heap, records)?;
        Ok(Side { heads, records })
    }

    // The rows, over the bytes of the names.
    pub(crate) fn view<'a>(&'a self, bytes: &'a [u8]) -> TableView<'a>
        ensures { viewed result ≡ rows_in bytes.now self.now }
    {
        TableView {
            heads: self.heads.as_slice(),
            records: self.records.as_slice(),
            bytes,
        }
    }

    // The row of a number, if there is one.
    pub(crate) fn head(&self, row: u16) -> Option<Head>
        ensures { result ≡ slice_get self.now.heads.items row }
    {
        head_at(self.heads.as_slice(), row)
    }

    // Lets go of the rows.
    pub(crate) fn clear(&mut self)
        ensures { EmptySide self.old.heads.most self.old.records.most self.new }
    {
        self.heads.clear();
        self.records.clear();
    }

    // That there is room for one more row is a premise of the next three: only who adds the rows knows how many come.
    // Adds a row of the other side as it is.
    pub(crate) fn carry(&mut self, side: &Side, head: Head)
        requires row_fits { HasRoom self.old.heads 1 }
        requires records_fit { HasRoom self.old.records (length (cut side.now.records.items head.records)) }
        ensures { self.new ≡ with_row self.old head.names head.facts (cut side.now.records.items head.records) }
    {
        let records = part(side.records.as_slice(), head.records);
        self.add(head.names, head.facts, records.iter().copied());
    }

    // Adds a row that was read, under names that are there.
    pub(crate) fn renew(&mut self, names: Names, view: RowView<'_>)
        requires row_fits { HasRoom self.old.heads 1 }
        requires records_fit { HasRoom self.old.records (length (imports_in view.imports)) }
        ensures { self.new ≡ with_row self.old names view.entry.head.facts (imports_in view.entry.imports) }
    {
        self.add(names, view.head.facts, view.imports);
    }

    // Adds a row: its facts, its import records, and where its names lie.
    fn add<I: Iterator<Item = ImportRecord> + Drop>(
        &mut self,
        names: Names,
        facts: Facts,
        records: I,
    )
        requires row_fits { HasRoom self.old.heads 1 }
        requires can { I.can_next records }
        requires records_fit { UpTo (I.remaining records) (self.old.records.most - length self.old.records.items) }
        ensures runs { WholeRun I.next_gives records (λ p. self.new ≡ with_row self.old names facts p.items) }
    {
        let records = self.records.append(records);
        self.heads.push(Head {
            facts,
            names,
            records,
        });
    }
}
