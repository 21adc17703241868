// The rows, and what is given for them, become the rows of the other side.
ghost use Rattle.std.specs.Prelude.{◌≡◌, ◌+◌, ◌<◌, ◌≤◌, min, false, ◌++◌, length};
ghost use Rattle.std.specs.List.{slice_get};
ghost use Rattle.rows.specs.Numbers.{total};
ghost use Rattle.project.specs.Rescan.{records_of};
ghost use Rattle.row_store.specs.Filled.{added, HasRoom};
ghost use Rattle.row_store.specs.Heads.{names_after};
ghost use Rattle.row_store.specs.Renewed.{row_given, coming, renewed, given_bytes, new_bytes, fresh, overfull};
ghost use Rattle.row_store.specs.Stores.{rows_now, rows_before, written, told, told_with, told_anew};

use crate::Names;
use crate::changes::Changes;
use crate::reserved::Reserved;
use crate::store::RowStore;
use packed::view::{RowHead, RowView};

impl RowStore {
    // Fills the other side with the rows, each with its change, and with the further rows.
    pub(super) fn refill<C: Changes>(&mut self, changes: &C)
        requires { overfull self.old.room (rows_now self.old) (written self.old) (C.Changes.given changes.now) ≡ false }
        ensures { told self.new ≡ told_anew (told self.old) (renewed (rows_now self.old) 0 (C.Changes.given changes.now)) (fresh (rows_now self.old) (C.Changes.given changes.now)) }
    {
        self.former.clear();
        // Rows are asked for by their numbers, so the loop goes over these. There are at most 4,096: `try_from` would bring in a fault that cannot come.
        let count = changes.count() as u16;
        for row in 0..count {
            self.put(row, changes.change(row));
        }
    }

    // Adds to the other side what comes of the row of a number and of what is given for it.
    #[tactic(auto, using(crate::proofs::Parts::looking))]
    fn put(&mut self, row: u16, change: Option<RowView<'_>>)
        requires row_fits { length (rows_before self.old) < min self.old.room.rows 4096 }
        requires records_fit { total records_of (rows_before self.old) + total records_of (coming (slice_get (rows_now self.old) row) (row_given change)) ≤ self.old.room.records }
        requires bytes_fit { written self.old + given_bytes (row_given change) ≤ self.old.room.bytes }
        ensures { told self.new ≡ told_with (told self.old) (coming (slice_get (rows_now self.old) row) (row_given change.entry)) (new_bytes (slice_get (rows_now self.old) row) (row_given change.entry)) }
    {
        match (self.current.head(row), change) {
            (None, None) => {}
            (Some(head), None) => self.former.carry(&self.current, head),
            (Some(head), Some(view)) => self.former.renew(head.names, view),
            (None, Some(view)) => {
                let names = add_names(&mut self.bytes, view.head);
                self.former.renew(names, view);
            }
        }
    }
}

// Adds the names of a row that was read.
fn add_names(bytes: &mut Reserved<u8>, head: RowHead<'_>) -> Names
    requires { HasRoom bytes.old (length head.id.now + length head.stable_id.now) }
    ensures bytes { bytes.new ≡ added bytes.old (head.entry.id.now ++ head.entry.stable_id.now) }
    ensures names { result ≡ names_after bytes.old.items head.entry.id.now head.entry.stable_id.now }
{
    let id = bytes.append(head.id.iter().copied());
    let stable_id = bytes.append(head.stable_id.iter().copied());
    Names { id, stable_id }
}
