// Rows kept in the byte order of a name, so that the row with a name is found by halves.
#![tactic(auto)]

ghost use Rattle.std.specs.Prelude.{◌≡◌, ℕ, ◌≤◌, List, vec_len, vec_capacity};
ghost use Rattle.name_order.specs.Orders.{named};

pub mod orders;

// As many rows as row numbers can tell apart.
const MOST_ROWS: usize = 65_536;

// Names by row number.
pub trait Names {
    ghost names: { Self → List (List ℕ) };

    // The name of a row; empty where there is no such row.
    fn name(&self, row: u16) -> &[u8]
        ensures { result.now ≡ named (names self.now) row };
}

// The name is another row's.
#[derive(Clone, Copy, Debug, PartialEq, Eq)]
pub struct Taken;

// Rows in the order of their names. The memory for all of them is reserved at once.
#[derive(Drop)]
pub struct Order {
    rows: Vec<u16>,
    ghost roomy: { 65536 ≤ vec_capacity rows },
    ghost counted: { vec_len rows ≤ 65536 },
}
