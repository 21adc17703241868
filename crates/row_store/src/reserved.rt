// Vectors whose memory is taken once.
ghost use Rattle.std.specs.Prelude.{◌≡◌, ◌-◌, ◌≤◌, [], ◌∷◌, length, IfOk};
ghost use Rattle.std.specs.Iterator.{UpTo};
ghost use Rattle.std.specs.Iterator.Runs.{WholeRun};
ghost use Rattle.row_store.specs.Filled.{added, HasRoom};
ghost use Rattle.row_store.specs.Cuts.{span};

use crate::Span;
use std::alloc::{AllocError, Global};
use std::marker::Model;

// A vector that is reserved for so many items. It never holds more, and no call but the first allocates.
#[derive(Drop)]
pub(crate) struct Reserved<T> {
    items: Vec<T>,
}

// A clause sees the items, how many there may be, and where they lie.
impl<T> Model for Reserved<T> {
    ghost use Rattle.std.specs.Prelude.{vec_capacity};
    ghost use Rattle.std.specs.Vec.{vec_ptr};
    ghost use Rattle.row_store.specs.Filled.{Filled, filled, filled_code};

    ghost Value = { Filled T };

    ghost coded = { filled_code T.code };

    ghost view = { λ v. filled v.items.items (vec_capacity v.items) (vec_ptr v.items) };
}

impl<T: Drop> Reserved<T> {
    pub(crate) fn new(heap: Global, most: usize) -> Result<Reserved<T>, AllocError>
        ensures { IfOk result (λ v. (v.items ≡ []) × (v.most ≡ most)) }
    {
        let items = Vec::with_capacity(heap, most)?;
        Ok(Reserved { items })
    }

    pub(crate) fn as_slice(&self) -> &[T]
        ensures { result.now ≡ self.now.items }
    {
        self.items.as_slice()
    }

    pub(crate) fn len(&self) -> usize
        ensures { result ≡ length self.now.items }
    {
        self.items.len()
    }

    // How many more items there is room for.
    pub(crate) fn left(&self) -> usize
        ensures value { result ≡ self.now.most - length self.now.items }
        ensures within { length self.now.items ≤ self.now.most }
    {
        self.items.capacity() - self.items.len()
    }

    pub(crate) fn push(&mut self, item: T)
        requires { HasRoom self.old 1 }
        ensures { self.new ≡ added self.old (item ∷ []) }
    {
        self.items.push_reserved(item);
    }

    // Adds all that comes, for which there is room, and says where it lies.
    // It pushes one by one: `extend` and `extend_from_slice` may allocate, and do not say that the capacity stays.
    pub(crate) fn append<I: Iterator<Item = T> + Drop>(&mut self, items: I) -> Span
        requires can { I.can_next items }
        requires room { UpTo (I.remaining items) (self.old.most - length self.old.items) }
        ensures runs { WholeRun I.next_gives items (λ p. (self.new ≡ added self.old p.items) × (result ≡ span (length self.old.items) (length p.items))) }
    {
        let start = self.len();
        for item in items {
            self.push(item);
        }
        let len = self.len() - start;
        Span { start, len }
    }

    pub(crate) fn clear(&mut self)
        ensures items { self.new.items ≡ [] }
        ensures most { self.new.most ≡ self.old.most }
    {
        self.items.clear();
    }
}
