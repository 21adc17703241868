// For each row number, where the record of the row begins in a list, if the list has the row.
ghost use Rattle.std.specs.Prelude.{◌≡◌, ◌≤◌, length, None, slice_index_or};
ghost use Rattle.module_table.specs.Drafts.{put_at};

use std::marker::Model;

// The memory is sized by what a row number can be, and not by the room of the table, so that a
// list which is longer than the room is still judged to its end.
#[derive(Drop)]
pub struct Places {
    offsets: Vec<Option<usize>>,
}

impl Model for Places {
    ghost use Rattle.std.specs.Prelude.{ℕ, ◌≤◌, List, Option, vec_items, vec_len, vec_capacity};

    ghost Value = { List (Option ℕ) };

    ghost view = { λ p. vec_items p.offsets };

    ghost invariant = { λ p. (65536 ≤ vec_capacity p.offsets) × (vec_len p.offsets ≤ 65536) };
}

impl Places {
    pub(crate) fn len(&self) -> usize
        ensures value { result ≡ length self.now }
        ensures few { result ≤ 65536 }
    {
        self.offsets.len()
    }

    // The place of a row, if it has one.
    pub(crate) fn get(&self, row: usize) -> Option<usize>
        ensures { result ≡ slice_index_or self.now row None }
    {
        self.offsets.get(row).copied().flatten()
    }

    // Gives a place to a row, or to the next one after the last. The answer is the place that it had.
    pub(crate) fn put(&mut self, row: u16, offset: usize) -> Option<usize>
        requires { row ≤ length self.old }
        ensures value { result ≡ slice_index_or self.old row None }
        ensures after { self.new ≡ put_at self.old row offset }
    {
        let row = usize::from(row);
        if row == self.offsets.len() {
            self.offsets.push_reserved(Some(offset));
            return None;
        }
        self.offsets[row].replace(offset)
    }
}
