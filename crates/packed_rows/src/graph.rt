// A packed list as a graph: its k-th record tells row k.
ghost use Rattle.packed_rows.specs.Graphs.{project_in};

use crate::PackedRows;
use rows::graph::Graph;
use rows::{Facts, ImportRecord};

impl Graph for PackedRows<'_> {
    ghost rows = { project_in };

    fn count(&self) -> usize {
        self.len()
    }

    fn facts(&self, row: u16) -> Option<Facts> {
        self.row(row.into()).map(|view| view.head.facts)
    }

    fn id(&self, row: u16) -> Option<&[u8]> {
        self.row(row.into()).map(|view| view.head.id)
    }

    fn stable_id(&self, row: u16) -> Option<&[u8]> {
        self.row(row.into()).map(|view| view.head.stable_id)
    }

    fn record_count(&self, row: u16) -> usize {
        self.row(row.into()).map_or(0, |view| view.imports.len())
    }

    fn record(&self, row: u16, place: usize) -> Option<ImportRecord> {
        self.row(row.into())?.imports.get(place)
    }
}
