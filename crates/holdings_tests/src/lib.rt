// The two stores, run side by side.
#![tactic(auto)]

#[cfg(test)]
mod tests;
