// The packed form of rows: its codes, numbers and sizes, which rows it allows, its faults, and what holds of it. The layout itself stands in specs/.
#![tactic(auto)]

pub mod allowed;
pub mod codes;
pub mod faults;
pub mod laws;
pub mod numbers;
pub mod sizes;
