//! From the text of a network, subnets included, to its plan, and the words in which a refusal is told. `flow_load`
//! makes plans by it. The contract is that of `expand`: the plan that the text has by `flow_flat`, or the fault that
//! comes first in it.
#![tactic(auto)]

mod given;
mod indexed;
mod instances;
mod meaning;
mod named;
mod plan;
mod processes;
mod recursion;
mod refusal;
mod statements;
mod stop;
mod way;

pub use plan::expand;
pub use refusal::{put_fault, put_net_fault};
pub use stop::ExpandStop;
