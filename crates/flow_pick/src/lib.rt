//! Components that pick packets of streams. `flow_catalogue` offers them to networks by their kinds' names. Each one's
//! contract is that of the trait with its own rules in `specs/`, and `meanings` has a law of each: what leaves it as a
//! whole stream, for what came.
#![tactic(auto)]

mod head;
mod meanings;
mod outcomes;
mod parting;
mod tail;
mod unique;

pub use head::Head;
pub use meanings::{
    head_keeps_its_meaning, streams_without_brackets_are_lists, tail_keeps_its_meaning,
    unique_keeps_its_meaning,
};
pub use outcomes::each_comes_to_one_outcome;
pub use tail::{Tail, TailPlace};
pub use unique::Unique;
