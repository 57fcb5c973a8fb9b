//! The batch update of a sorted master file by a sorted detail file. `flow_catalogue` offers `Update` to networks,
//! behind a `Collate` of the two files. Its contract is that of the trait, and the laws in `meanings` say what the new
//! master file is, in a bookkeeper's words.
#![tactic(auto)]

mod meanings;
mod records;
#[cfg(test)]
mod tests;
mod update;

pub use meanings::{a_batch_is_a_book, a_book_has_one_order, update_keeps_its_meaning};
pub use records::Posting;
pub use update::Update;

/// The greatest amount of a record.
pub const AMOUNT_LIMIT: u64 = 1_000_000_000_000_000;
