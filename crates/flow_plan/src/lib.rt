//! What a plan is: processes with their options and initial texts, the connections between them, and what makes one
//! valid. The builder makes plans, and everything that runs, checks or draws a network takes one. It has hardly any
//! code; the definitions are in `specs/Valid.antt` and `specs/Network.antt`.
#![tactic(auto)]

mod kind;
mod names;
mod plan;

pub use kind::{KindSpec, PortClass, PortRef, PortSpec};
pub use plan::{Connection, Plan, PortRow, PortTable, Process, Sender};
