//! Exact decimal numbers, as they stand in texts: how one is read and spelled, how two compare and what they sum to; and
//! bounds, as `>= 0.5`, which a number meets or doesn't. Components that compute with the numbers of records stand on it.
//! The contracts are those of `Decimal` and `Bound`, and `laws` says what follows from them.
#![tactic(auto)]

mod bound;
mod decimal;
mod digits;
mod laws;
mod order;
mod reading;
mod spelling;
mod sum;

pub use bound::{Bound, BoundStop, Comparison};
pub use decimal::{Decimal, NumberStop};
pub use laws::{lengthening_keeps, spelling_reads_back, sums_commute};
