//! What a call gives beside its network file: texts for the words of the network, and a shelf on which the network file is filled with them. Whoever makes a top
//! call on that shelf has its promises of the filled text. The contracts are those of `FilledShelf`, which is a shelf like any other, and of `split`.
#![tactic(auto)]

mod call;
mod shelf;

pub use call::{all_given, gives_text, net_of, split};
pub use shelf::FilledShelf;
