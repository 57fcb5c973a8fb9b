//! Components that search texts for a pattern. `flow_catalogue` offers them to networks by their kinds' names. Each
//! one's contract is that of the trait with its own rules in `specs/`, over what `flow_pattern` says of a pattern, and
//! `meanings` has a law of each: what leaves it as a whole stream, for what came.
#![tactic(auto)]

mod matching;
mod meanings;
mod outcomes;
mod replacing;

pub use matching::Match;
pub use meanings::{match_keeps_its_meaning, replace_keeps_its_meaning};
pub use outcomes::each_comes_to_one_outcome;
pub use replacing::Replace;
