//! What `draw` does, for a program with kinds of its own: it reads the words of its call, and prints the drawing of the
//! network of a file, or of the state to which a journal leads, with the words that are given for it and the files that
//! it uses; and it says on the standard error what a person needs to find a fault. A program's `main` hands in its kinds
//! and ends as `drawing` says. What is promised is the contract of the top call in `flow_draw`; of the standard error no
//! clause speaks.
#![tactic(auto)]

mod call;
mod explain;
mod top;
mod words;

pub use top::{drawing, no_memory};
pub use words::split;
