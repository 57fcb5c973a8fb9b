//! What stands outside a program over the real system: its files as a shelf, the standard output as a sink, and the words
//! with which it was called. The programs use it, each in its `main`, and `flow_explain` for them. Its contracts are those
//! of the traits in `flow_text`, and that the system does as they say is trusted.
#![tactic(auto)]

mod access;
mod again;
mod folder;
mod known;
mod opened;
mod place;
mod replacing;
mod seen;
mod shelf;
mod stdout;
mod streams;
mod system;
mod words;

pub use shelf::FileShelf;
pub use stdout::StdSink;
pub use words::words_of;
