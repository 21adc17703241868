// A list of rows laid over a table, as far as the list has been gone through.
ghost use Rattle.std.specs.Prelude.{◌≡◌, List, None, slice_index_or};
ghost use Rattle.std.specs.Option.{option_map};
ghost use Rattle.rows.specs.declared.ImportRecord.{ImportRecord};
ghost use Rattle.rows.specs.Rows.{at};
ghost use Rattle.packed_layout.specs.Layout.{row_of};
ghost use Rattle.packed.specs.Views.{head_in, shown, glanced};
ghost use Rattle.project.specs.Rescan.{keeps};
ghost use Rattle.module_table.specs.Names.{name_of, names_of};
ghost use Rattle.module_table.specs.Drafts.{glanced_by, overlaid};

use crate::places::Places;
use name_order::Names;
use packed::read::glance_at;
use packed::view::{Outline, RowHead, RowView};
use rows::Sort;
use rows::graph::Graph;

// Which of the two names of a row is meant.
#[derive(Clone, Copy, Debug, PartialEq, Eq)]
pub enum NameKind {
    Id,
    StableId,
}

impl NameKind {
    // The name in the head of a row, whatever import records follow it.
    fn in_head<'a>(self, head: &RowHead<'a>) -> &'a [u8]
        ensures { (records : List ImportRecord) → result.now ≡ name_of self (row_of (head_in head.now) records).1 }
    {
        match self {
            NameKind::Id => head.id,
            NameKind::StableId => head.stable_id,
        }
    }

    // The name of a row of a graph; empty where there is no such row.
    #[tactic(auto, using(crate::proofs::Overlays::lent_at, crate::proofs::Overlays::unnamed))]
    fn in_graph<G: Graph>(self, table: &G, row: u16) -> &[u8]
        ensures { result.now ≡ name_of self (at (G.rows table.now) row) }
    {
        let name = match self {
            NameKind::Id => table.id(row),
            NameKind::StableId => table.stable_id(row),
        };
        name.unwrap_or(&[])
    }
}

// The table, the bytes of the list, and where the record of each row begins in them.
#[derive_where(Clone, Copy)]
pub struct Overlay<'a, G> {
    pub(crate) table: &'a G,
    pub(crate) bytes: &'a [u8],
    pub(crate) places: &'a Places,
}

impl<'a, G: Graph> Overlay<'a, G> {
    // The row of a number, if the list has it.
    fn glance(&self, row: u16) -> Option<Outline<'_>>
        ensures { option_map (λ o. (glanced o).1) result ≡ slice_index_or (glanced_by self.now.bytes.now self.now.places.now) row None }
    {
        let offset = self.places.get(usize::from(row))?;
        glance_at(self.bytes, offset)
    }

    #[tactic(auto, using(crate::proofs::Overlays::at_overlay))]
    fn name(&self, kind: NameKind, row: u16) -> &[u8]
        ensures { result.now ≡ name_of kind (at (overlaid G.rows self.now) row) }
    {
        match self.glance(row) {
            Some(outline) => kind.in_head(&outline.head),
            None => kind.in_graph(self.table, row),
        }
    }

    #[tactic(auto, using(crate::proofs::Overlays::at_overlay))]
    fn sort(&self, row: u16) -> Sort
        ensures { result ≡ (at (overlaid G.rows self.now) row).sort }
    {
        match self.glance(row) {
            Some(outline) => outline.head.facts.sort,
            None => self
                .table
                .facts(row)
                .map_or(Sort::External, |facts| facts.sort),
        }
    }

    // Whether a row has the names and the sort of the row of its number.
    pub(crate) fn is_kept_by(&self, row: &RowView<'_>) -> bool
        ensures { result ≡ keeps (at (overlaid G.rows self.now) row.now.head.number) (shown row.now).1 }
    {
        let head = row.head;
        self.name(NameKind::Id, head.number) == head.id
            && self.name(NameKind::StableId, head.number) == head.stable_id
            && self.sort(head.number) == head.facts.sort
    }
}

// The rows of an overlay by one of their names.
#[derive_where(Clone, Copy)]
pub struct ByName<'a, G> {
    pub(crate) overlay: Overlay<'a, G>,
    pub(crate) kind: NameKind,
}

impl<G: Graph> Names for ByName<'_, G> {
    ghost names = { λ n. names_of n.kind (overlaid G.rows n.overlay) };

    #[tactic(auto, using(crate::proofs::Overlays::named_at))]
    fn name(&self, row: u16) -> &[u8] {
        self.overlay.name(self.kind, row)
    }
}
