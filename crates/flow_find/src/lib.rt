//! Components that take texts apart by the matches of a pattern, as components that map (`flow_map`): one that sends what
//! a template makes of each match, one that sends the texts between the matches, and one that sends each text with its
//! matches replaced by what a template makes of them. What a pattern is, and what a template, says `flow_pattern`.
#![tactic(auto)]

mod find;
mod meanings;
mod rewrite;
mod split;

pub use find::Find;
pub use meanings::{
    a_whole_match_is_its_text, find_keeps_its_meaning, rewrite_keeps_its_meaning,
    split_keeps_its_meaning,
};
pub use rewrite::Rewrite;
pub use split::Split;
