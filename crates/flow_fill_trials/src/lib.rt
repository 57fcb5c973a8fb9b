//! Trials of filled network files: worked rows, to the last byte, where no clause says that a call succeeds. Nothing uses it.
#![tactic(auto)]

#[cfg(test)]
mod rows;
