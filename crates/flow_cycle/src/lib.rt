//! What blocks a process, who waits for whom in a deadlock, and the cycle in which they wait. The report of `flow_report`
//! and the drawing of `flow_draw` ask it. The contracts are that of `block_of`, and that of `cycle`: the cycle of a state
//! in which nobody can take a turn, where there is one; a law says when there is exactly one.
#![tactic(auto)]

mod block;
mod find;

ghost use Rattle.flow_cycle.specs.Laws.{DeadlocksWait};
ghost use Rattle.flow_cycle.specs.Nets.{FindsCycles};

pub use block::{block_of, has_ended};
pub use find::cycle;
use flow_component::Component;

/// A process that can't go on, the connection at which it waits, and the process that it waits for.
#[derive(Clone, Copy, Debug, PartialEq, Eq)]
pub struct Waits {
    pub process: u32,
    pub connection: u32,
    pub to: u32,
}

/// In every deadlock that a schedule reaches from the start of a plan whose components fit, each process that is blocked waits for one
/// that is blocked, and whoever follows for whom each waits, from the lowest one on, comes to one cycle.
pub fn every_deadlock_has_its_waiting_cycle<K: Component>()
    ensures { DeadlocksWait K.rules }
{}

/// What `cycle` finds in a net is the waiting cycle of each state that the net stands for and a schedule reaches, and it finds none
/// exactly where that is no deadlock.
pub fn a_net_tells_its_waiting_cycle<K: Component>()
    ensures { FindsCycles K.rules }
{}
