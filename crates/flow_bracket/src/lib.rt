//! The nesting of brackets in a stream (Morrison's book, the chapter on substreams and control brackets). It is for
//! whoever writes a component or a reader of streams of his own; the engine doesn't use it. The contracts are those of
//! `Depth`, and of `substreams`, which finds each Open's Close.
#![tactic(auto)]

mod depth;
mod pairs;

pub use depth::Depth;
pub use pairs::substreams;
