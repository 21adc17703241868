// The script of a rehearsal: what a line of it means.
#![tactic(auto)]

mod bytes;
pub mod call;
pub mod line;
mod numbers;
mod setting;
pub mod words;
