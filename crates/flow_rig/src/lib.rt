//! What trials of whole networks stand on: the plan of a text, its network at the start, turns that are made by hand,
//! and calls over files in memory. The crates of trials and benchmarks use it. The contracts stand with its functions,
//! and each says what a trial may rely on.
#![tactic(auto)]

mod asker;
mod call;
mod network;
mod starting;
mod turns;

pub use asker::Asker;
pub use call::{
    CallStop, Called, File, call_alone, call_alone_with, call_by_workers, call_by_workers_with,
};
pub use network::{TrialStop, plan_of_text};
pub use starting::{askers, standard_components, started};
pub use turns::{next_turn, seen_turn};
