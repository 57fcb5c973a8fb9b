//! What a network file of version 3 comes to in a call: its text with what the call gives for its words, the subnets of the files that it uses behind that, and
//! where each line of these stands. `flow_program` runs it and `flow_drawn` draws it. No contract speaks of it: what is promised of a filled and of a joined
//! text are the contracts of `flow_fill`.
#![tactic(auto)]

mod net;
mod place;
mod refusal;
mod used;

pub use net::{NetStop, text_of};
pub use place::placed;
pub use refusal::{Refusal, refusal_of};
pub use used::{Joined, Origin, UsedStop, with_used};
