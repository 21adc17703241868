// A view of one side of the table, as a graph.
ghost use Rattle.std.specs.Prelude.{◌≡◌};
ghost use Rattle.std.specs.List.{slice_get};
ghost use Rattle.rows.specs.Rows.{at};
ghost use Rattle.row_store.specs.Cuts.{cut};
ghost use Rattle.row_store.specs.Views.{viewed};

use crate::{Head, Span};
use rows::graph::Graph;
use rows::{Facts, ImportRecord};

// What is lent of a store: the rows and the import records of one side, and the bytes of the names.
#[derive(Clone, Copy)]
pub struct TableView<'a> {
    pub(crate) heads: &'a [Head],
    pub(crate) records: &'a [ImportRecord],
    pub(crate) bytes: &'a [u8],
}

impl TableView<'_> {
    // The import records of a row; none where there is no such row.
    #[tactic(auto, using(crate::proofs::Parts::looking))]
    fn records_of(&self, row: u16) -> &[ImportRecord]
        ensures { result.now ≡ (at (viewed self.now) row).records }
    {
        head_at(self.heads, row)
            .map(|head| part(self.records, head.records))
            .unwrap_or_default()
    }
}

impl Graph for TableView<'_> {
    ghost rows = { viewed };

    fn count(&self) -> usize {
        self.heads.len()
    }

    fn facts(&self, row: u16) -> Option<Facts> {
        head_at(self.heads, row).map(|head| head.facts)
    }

    fn id(&self, row: u16) -> Option<&[u8]> {
        head_at(self.heads, row).map(|head| part(self.bytes, head.names.id))
    }

    fn stable_id(&self, row: u16) -> Option<&[u8]> {
        head_at(self.heads, row).map(|head| part(self.bytes, head.names.stable_id))
    }

    fn record_count(&self, row: u16) -> usize {
        self.records_of(row).len()
    }

    fn record(&self, row: u16, place: usize) -> Option<ImportRecord> {
        self.records_of(row).get(place).copied()
    }
}

// The row of a number, if there is one.
pub(crate) fn head_at(heads: &[Head], row: u16) -> Option<Head>
    ensures { result ≡ slice_get heads.now row }
{
    heads.get(usize::from(row)).copied()
}

// The part of a slice, as far as it lies within.
pub(crate) fn part<T>(items: &[T], span: Span) -> &[T]
    ensures { result.now ≡ cut items.now span }
{
    let start = span.start.min(items.len());
    let len = span.len.min(items.len() - start);
    &items[start..start + len]
}
