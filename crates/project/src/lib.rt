// What a project is, what a list of packed rows does to it, and why such a list is refused.
#![tactic(auto)]

pub mod faults;
pub mod laws;

// How much a table holds at most: rows, import records, and bytes of ids and stable ids.
#[derive(Clone, Copy)]
pub struct Room {
    pub rows: usize,
    pub records: usize,
    pub bytes: usize,
}
