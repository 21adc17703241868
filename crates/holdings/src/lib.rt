// Stores of stamps for pairs of a tablet and a row: what every store does, and what can be done with any.
#![tactic(auto)]

pub mod faults;
pub mod spot;
pub mod store;
pub mod uses;
