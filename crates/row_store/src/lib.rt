// The memory of a live table: rows in vectors that are reserved once, and the rows as they were before the last rewrite.
#![tactic(auto)]

pub mod changes;
pub mod graph;
mod reserved;
mod sides;
pub mod store;

use reserved::Reserved;
use rows::{Facts, ImportRecord};

// A part of a slice.
#[derive(Clone, Copy, Debug, PartialEq, Eq)]
pub struct Span {
    pub start: usize,
    pub len: usize,
}

// Where the names of a row lie, in bytes that both sides share.
#[derive(Clone, Copy, Debug, PartialEq, Eq)]
pub struct Names {
    pub id: Span,
    pub stable_id: Span,
}

// A row, with its names and its import records as parts of slices that lie elsewhere.
// It owns no vectors: all memory is taken when the store is reserved, so the rows share it.
#[derive(Clone, Copy, Debug, PartialEq, Eq)]
pub struct Head {
    pub facts: Facts,
    pub names: Names,
    pub records: Span,
}

// One side of the table: its rows, and their import records. The names lie in bytes that both sides share.
#[derive(Drop)]
pub struct Side {
    heads: Reserved<Head>,
    records: Reserved<ImportRecord>,
}

// More than there is room for.
#[derive(Clone, Copy, Debug, PartialEq, Eq)]
pub struct Full;
