//! Trials of decimal numbers, of bounds, and of the component that parts by them: worked rows, where no clause says that a
//! call succeeds. Nothing uses it.
#![tactic(auto)]

#[cfg(test)]
mod bounds;
#[cfg(test)]
mod numbers;
#[cfg(test)]
mod wheres;
