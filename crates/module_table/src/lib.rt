// The live table of a planner.
#![tactic(auto)]

mod asked;
mod judge;
mod links;
pub mod overlay;
pub mod places;
pub mod scratch;
