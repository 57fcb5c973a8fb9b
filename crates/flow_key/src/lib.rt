//! Keys: what a pattern finds in a text. Components that compare texts by a part of them, as those that group, take it
//! from here, so that a key is one thing in all of them. The contract is that of `Key`.
#![tactic(auto)]

mod key;

pub use key::Key;
