// What can be done with an order: a name is looked up, and the next row is given its place.
ghost use Rattle.std.specs.Prelude.{◌≡◌, [], ◌∷◌, ◌++◌, length, is_some, is_ok, IfOk, if◌then◌else◌, Ok, Err, vec_len};
ghost use Rattle.std.specs.List.Sorted.{IsSearchInRange};
ghost use Rattle.name_order.specs.Orders.{number_of, ordered, IsOrder, Located, OrdersAreByName};
ghost use Rattle.name_order.specs.Listed.{listed, reserved, taken};

use crate::{MOST_ROWS, Names, Order, Taken};
use std::alloc::{AllocError, Global};
use std::cmp::Ordering;

// That an order goes with the names is a premise of the clauses, since a ghost field would demand it of each caller.
impl Order {
    // An order with no rows, with memory for as many as row numbers can tell apart.
    pub fn reserve(heap: Global) -> Result<Order, AllocError>
        ensures { IfOk result (λ o. listed o ≡ []) }
    {
        let rows = Vec::with_capacity(heap, MOST_ROWS)?;
        Ok(Order { rows })
    }

    // The rows in their order.
    pub fn rows(&self) -> &[u16]
        ensures { result.now ≡ listed self.now }
    {
        self.rows.as_slice()
    }

    // Where a name stands: at the row that has it, or else where the next row would stand with it.
    fn locate<N: Names>(&self, names: &N, name: &[u8]) -> Result<usize, usize>
        ensures within { IsSearchInRange result (vec_len self.now.rows) }
        ensures located { IsOrder (N.names names.now) (listed self.now) → Located (N.names names.now) name.now (listed self.now) result }
    {
        // Not the library's search, which goes on where it meets the name: one in the middle would be compared a dozen times.
        let mut low = 0;
        let mut high = self.rows.len();
        while low < high {
            let mid = low + (high - low) / 2;
            match names.name(self.rows[mid]).cmp(&name) {
                Ordering::Less => low = mid + 1,
                Ordering::Greater => high = mid,
                Ordering::Equal => return Ok(mid),
            }
        }
        Err(low)
    }

    // The row that has a name.
    pub fn find<N: Names>(&self, names: &N, name: &[u8]) -> Option<u16>
        ensures { IsOrder (N.names names.now) (listed self.now) → result ≡ number_of name.now (N.names names.now) }
    {
        self.locate(names, name).ok().map(|place| self.rows[place])
    }

    // Gives the next row its place, unless its name is taken.
    pub fn insert<N: Names>(&mut self, names: &N, row: u16, name: &[u8]) -> Result<(), Taken>
        ensures answer { IsOrder (N.names names.now) (listed self.old) → row ≡ length (N.names names.now) → result ≡ (if is_some (number_of name.now (N.names names.now)) then Err taken else Ok tt) }
        ensures after { IsOrder (N.names names.now) (listed self.old) → row ≡ length (N.names names.now) → listed self.new ≡ (if is_ok result then ordered (N.names names.now ++ name.now ∷ []) else listed self.old) }
        ensures sized { reserved self.new ≡ reserved self.old }
    {
        let place = self.locate(names, name).err().ok_or(Taken)?;
        // With all row numbers given out there is no next row. Short of that there is memory for it.
        if self.rows.len() >= MOST_ROWS {
            return Err(Taken);
        }
        self.rows.insert(place, row).map_err(|_| Taken)
    }

    // Takes over the rows of another order.
    pub fn copy_from(&mut self, other: &Order)
        ensures rows { listed self.new ≡ listed other.now }
        ensures sized { reserved self.new ≡ reserved self.old }
    {
        self.rows.clear();
        // Pushed one by one: `extend_from_slice` may allocate, and does not say that the capacity stays.
        for row in other.rows.as_slice() {
            self.rows.push_reserved(*row);
        }
    }
}

// An order has all rows, each once, and each has a name before the names of those that follow it.
pub fn law_of_orders()
    ensures { OrdersAreByName }
{}
