//! A rig for one component of the caller's own: lines in, lines out, without any network. Whoever writes such a part tries
//! it so while it grows, by `rt try --test`, which takes seconds. Nothing but tests uses it. No contract says what comes
//! out; each function is safe, and comes to its end.
#![tactic(auto)]

mod rig;
mod turns;

pub use rig::{tried, tried_line};
