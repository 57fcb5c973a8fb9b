//! What the programs say on the standard error of a network file that is refused: the line at fault, and what would be
//! right there; and of a file that can't be read or written, where it is named. Every program uses it. No contract speaks
//! of what it says, and it never changes how a program ends.
#![tactic(auto)]

mod bad;
mod bytes;
mod folders;
mod forms;
mod found;
mod inside;
mod kinds;
mod line;
mod may;
mod named;
mod near;
mod net;
mod open;
mod outer;
mod own;
mod patterns;
mod pieces;
mod place;
mod ports;
mod refusal;
mod refused;
mod said;
mod shown;
mod streams;
mod texts;
mod words;

pub use bad::put_failed;
pub use folders::put_folders;
pub use may::Uses;
pub use named::{Use, net_of, put_named};
pub use near::nearest;
pub use open::put_open;
pub use patterns::put_large;
pub use refusal::{put_refusal, put_refusal_of, put_too_large};
pub use shown::{put_all, put_word};
pub use streams::put_stream;
