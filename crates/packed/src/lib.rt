// Reading packed records where they lie.
#![tactic(auto)]

pub mod fields;
pub mod read;
pub mod records;
pub mod view;
