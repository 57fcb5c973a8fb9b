//! The component that parts the packets of a stream by the numbers that their texts are. Its contract is that of the trait
//! with its own rules in `specs/`, and `meanings` has its law: what leaves it as a whole stream, for what came.
#![tactic(auto)]

mod bounded;
mod meanings;
mod outcomes;

pub use bounded::Where;
pub use meanings::where_keeps_its_meaning;
pub use outcomes::comes_to_one_outcome;
