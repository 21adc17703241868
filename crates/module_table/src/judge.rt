// The rows of a list are judged one by one, each by the table with the rows before it.
ghost use Rattle.std.specs.Prelude.{◌≡◌, ◌<◌, ◌≤◌, true, not, [], ◌∷◌, ◌++◌, length, is_some, is_ok, None, OnOk, slice_index_or};
ghost use Rattle.packed.specs.Views.{shown};
ghost use Rattle.packed_layout.specs.Layout.{read_all};
ghost use Rattle.packed_rows.specs.Lists.{WellFormed, entries_of};
ghost use Rattle.packed_rows.specs.Entries.{entry_in};
ghost use Rattle.name_order.specs.Listed.{listed};
ghost use Rattle.project.specs.Rescan.{placed, merged, taken};
ghost use Rattle.module_table.specs.Drafts.{blank, placing, places_by, drafted, overlaid};
ghost use Rattle.module_table.specs.Judged.{InOrder, row_judged, rows_judged};

use crate::overlay::{ByName, NameKind, Overlay};
use crate::places::Places;
use name_order::{Order, Taken};
use packed::view::RowView;
use packed_layout::faults::RowFault;
use packed_rows::entries::Entries;
use rows::graph::Graph;

// Rows in the order of their ids, and in that of their stable ids.
// Each function says which rows these are: no field holds the table, and after a refused row the orders need not go with it.
#[derive(Drop)]
pub struct Orders {
    pub(crate) ids: Order,
    pub(crate) stable_ids: Order,
}

impl Orders {
    // Gives the next row its places in both orders, unless one of its names is taken.
    fn enter<G: Graph>(&mut self, rows: &Overlay<'_, G>, row: &RowView<'_>) -> Result<(), Taken>
        requires ordered { InOrder (overlaid G.rows rows.now) (listed self.old.ids) (listed self.old.stable_ids) }
        requires next { row.now.head.number ≡ length (overlaid G.rows rows.now) }
        ensures answer { is_ok result ≡ not (taken (overlaid G.rows rows.now) (shown row.now).1) }
        ensures after { OnOk result (InOrder (overlaid G.rows rows.now ++ (shown row.now).1 ∷ []) (listed self.new.ids) (listed self.new.stable_ids)) }
    {
        let head = row.head;
        let by_id = ByName {
            overlay: *rows,
            kind: NameKind::Id,
        };
        self.ids.insert(&by_id, head.number, head.id)?;
        let by_stable_id = ByName {
            overlay: *rows,
            kind: NameKind::StableId,
        };
        self.stable_ids
            .insert(&by_stable_id, head.number, head.stable_id)
    }
}

// The rows of a table with those of a list, as far as it has been gone through: where the list has
// them, and by name.
#[derive(Drop)]
pub struct Draft {
    pub(crate) places: Places,
    pub(crate) orders: Orders,
}

impl Draft {
    // One row of a list: its fault, or whether the list has it twice, which is for `judge_rows` to gather.
    fn judge_row<G: Graph>(
        &mut self,
        table: &G,
        bytes: &[u8],
        offset: usize,
        row: &RowView<'_>,
    ) -> Result<bool, RowFault>
        requires sized { length self.old.places ≡ length (drafted (G.rows table.now) bytes.now self.old.places) }
        requires ordered { InOrder (drafted (G.rows table.now) bytes.now self.old.places) (listed self.old.orders.ids) (listed self.old.orders.stable_ids) }
        ensures answer { result ≡ row_judged (drafted (G.rows table.now) bytes.now self.old.places) (is_some (slice_index_or self.old.places row.now.head.number None)) (entry_in (offset, row.now)) }
        ensures places { OnOk result (self.new.places ≡ placing self.old.places (entry_in (offset, row.now))) }
        ensures orders { OnOk result (InOrder (placed (drafted (G.rows table.now) bytes.now self.old.places) (entry_in (offset, row.now))) (listed self.new.orders.ids) (listed self.new.orders.stable_ids)) }
    {
        let number = usize::from(row.head.number);
        let count = self.places.len();
        if number > count {
            return Err(RowFault::OutOfTurn { offset });
        }
        let rows = Overlay {
            table,
            bytes,
            places: &self.places,
        };
        if number < count {
            if !rows.is_kept_by(row) {
                return Err(RowFault::NameClash { offset });
            }
        } else {
            self.orders
                .enter(&rows, row)
                .map_err(|_| RowFault::NameClash { offset })?;
        }
        Ok(self.places.put(row.head.number, offset).is_some())
    }
}

// Gives each row of a list its place and its names: the first fault, or whether the list has a
// row twice. The list is well formed, and the draft has just the table.
// A row that stands twice is told by a bool and is no fault: a later row's fault goes before it, so it cannot refuse at once.
pub(crate) fn judge_rows<G: Graph>(
    table: &G,
    draft: &mut Draft,
    bytes: &[u8],
) -> Result<bool, RowFault>
    requires formed { WellFormed bytes.now }
    requires begun { draft.old.places ≡ blank (length (G.rows table.now)) }
    requires ordered { InOrder (G.rows table.now) (listed draft.old.orders.ids) (listed draft.old.orders.stable_ids) }
    ensures answer { result ≡ rows_judged (G.rows table.now) (entries_of (read_all bytes.now)) }
    ensures places { OnOk result (draft.new.places ≡ places_by (blank (length (G.rows table.now))) (entries_of (read_all bytes.now))) }
    ensures orders { OnOk result (InOrder (merged (G.rows table.now) (entries_of (read_all bytes.now))) (listed draft.new.orders.ids) (listed draft.new.orders.stable_ids)) }
{
    let mut twice = false;
    for (offset, row) in Entries::over(bytes) {
        twice |= draft.judge_row(table, bytes, offset, &row)?;
    }
    Ok(twice)
}
