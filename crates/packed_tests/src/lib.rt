// Tables of good, damaged and boundary records, read and packed.
#![tactic(auto)]

#[cfg(test)]
mod tests;
