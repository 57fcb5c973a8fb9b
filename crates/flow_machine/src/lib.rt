//! Networks in running code: bodies, which are processes that run a component; channels, which are connections; and
//! nets of them. One thread runs a net by it, and the floor lends its bodies and channels to workers. The contracts are
//! those of `Net` and `Body`: each call says what the machine of `flow_model` did.
#![tactic(auto)]

mod answers;
mod body;
mod channel;
mod inlet;
mod net;
mod outlets;
mod start;
mod wires;

pub use answers::{Case, Effect, Over, Status, Thought, Turn};
pub use body::Body;
pub use channel::Channel;
pub use flow_model::{Block, Stage};
pub use net::{Closed, Net, Parts, solo, solo_past};
