//! What `flow` does, for a program with kinds of its own: it reads the words of its call, and runs, checks or replays the network of a file, with the
//! words that are given for it and the files that it uses; and it says on the standard error what a person needs to find a fault. A program's `main`
//! hands in its kinds and ends as `program` says. What is promised is the contract of the top calls in `flow_cli`; of the standard error no clause speaks.
#![tactic(auto)]

mod call;
mod early;
mod explain;
mod filled;
mod kept;
mod meter;
mod own;
mod texts;
mod top;
mod words;

pub use top::{making_program, no_memory, program};
