// The rows are rewritten into the other side, and the sides change places.
ghost use Rattle.std.specs.Prelude.{◌≡◌, ◌+◌, not, ◌&&◌, length, is_ok, is_some, IfSome, if◌then◌else◌, MatchResult, OnErr, nat_le};
ghost use Rattle.rows.specs.Numbers.{total};
ghost use Rattle.row_store.specs.Sides.{SameSize};
ghost use Rattle.row_store.specs.Stores.{rows_now, rows_before, written};
ghost use Rattle.row_store.specs.Renewed.{row_given, renewed, given_records, given_bytes, overfull, fresh};

use crate::Full;
use crate::changes::Changes;
use crate::store::{MOST_ROWS, RowStore};
use packed::view::RowView;

// How much of the room something takes.
#[derive(Clone, Copy, Default)]
struct Size {
    records: usize,
    bytes: usize,
}

impl RowStore {
    // Rewrites the rows by what is given, where there is room for all of it. The rows as they were are then the rows before.
    pub fn rewrite<C: Changes>(&mut self, changes: &C) -> Result<(), Full>
        ensures test { is_ok result ≡ not (overfull self.old.room (rows_now self.old) (written self.old) (C.Changes.given changes.now)) }
        ensures after { rows_now self.new ≡ (if is_ok result then renewed (rows_now self.old) 0 (C.Changes.given changes.now) else rows_now self.old) }
        ensures before { rows_before self.new ≡ (if is_ok result then rows_now self.old else rows_before self.old) }
        ensures written { written self.new ≡ (if is_ok result then written self.old + fresh (rows_now self.old) (C.Changes.given changes.now) else written self.old) }
        ensures same { self.new.room ≡ self.old.room }
        ensures unchanged { OnErr result (self.new ≡ self.old) }
        ensures sized { (self.new.bytes.most ≡ self.old.bytes.most) × MatchResult result (λ _. SameSize self.old.former self.new.current × SameSize self.old.current self.new.former) (λ _. SameSize self.old.current self.new.current × SameSize self.old.former self.new.former) }
    {
        self.check_room(changes)?;
        self.refill(changes);
        std::mem::swap(&mut self.current, &mut self.former);
        Ok(())
    }

    // Refuses what is given where it is more than there is room for, beside what is held.
    fn check_room<C: Changes>(&self, changes: &C) -> Result<(), Full>
        ensures { is_ok result ≡ not (overfull self.now.room (rows_now self.now) (written self.now) (C.Changes.given changes.now)) }
    {
        let count = u16::try_from(changes.count()).map_err(|_| Full)?;
        if usize::from(count) > self.room.rows.min(MOST_ROWS) {
            return Err(Full);
        }
        let free = Size {
            records: self.current.records.left(),
            bytes: self.bytes.left(),
        };
        free.check_given(changes, count)
    }
}

impl Size {
    // Refuses what is given where it takes more. The caller has counted it, as a row number.
    fn check_given<C: Changes>(self, changes: &C, count: u16) -> Result<(), Full>
        requires { count ≡ length (C.Changes.given changes.now) }
        ensures { is_ok result ≡ (nat_le (total given_records (C.Changes.given changes.now)) self.records && nat_le (total given_bytes (C.Changes.given changes.now)) self.bytes) }
    {
        let mut left = self;
        // Rows are asked for by their numbers; a `try_fold` over these would only wrap the same two calls in a closure.
        for row in 0..count {
            left = left.minus(Size::of(changes.change(row))).ok_or(Full)?;
        }
        Ok(())
    }

    // What a row takes that is given; nothing where none is.
    fn of(change: Option<RowView<'_>>) -> Size
        ensures records { result.records ≡ given_records (row_given change.entry) }
        ensures bytes { result.bytes ≡ given_bytes (row_given change.entry) }
    {
        change
            .map(|view| Size {
                records: view.imports.len(),
                bytes: view.head.id.len() + view.head.stable_id.len(),
            })
            .unwrap_or_default()
    }

    // What is left without another size, if it is that much.
    fn minus(self, other: Size) -> Option<Size>
        ensures test { is_some result ≡ (nat_le other.records self.records && nat_le other.bytes self.bytes) }
        ensures left { IfSome result (λ left. (left.records + other.records ≡ self.records) × (left.bytes + other.bytes ≡ self.bytes)) }
    {
        Some(Size {
            records: self.records.checked_sub(other.records)?,
            bytes: self.bytes.checked_sub(other.bytes)?,
        })
    }
}
