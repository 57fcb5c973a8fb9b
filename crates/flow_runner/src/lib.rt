//! Workers in threads run a network. `flow_cli` runs by it where workers are asked for. The contract is that of `run`:
//! the net is one that the given net reaches by the turns that all workers made together; and at the end no process can
//! take a turn, unless some found no memory: those are listed, and then it says nothing of the others.
#![tactic(auto)]

mod calls;
mod crew;
mod groups;
mod judge;
mod line;
mod lines;
mod orders;
mod paces;
mod paused;
mod posted;
mod readied;
mod rest;
mod server;
mod service;
mod stint;
mod stretches;
mod together;
mod tuned;
mod turns;
mod watch;
mod work;
mod worked;

pub use crew::{RunStop, run, what_each_made_is_what_all_made};
pub use line::{Line, LinePass};
pub use orders::{
    a_closed_line_was_first_in_first_out, each_place_of_a_line_is_one_passes,
    several_passes_are_never_told,
};
pub use paused::run_for;
pub use service::serve;
pub use stretches::{a_round_is_a_stretch, two_floors_are_one, two_stretches_are_one};
pub use worked::{Crew, Worked};
