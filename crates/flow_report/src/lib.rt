//! What a run came to, and the lines in which that is printed. `flow_cli` prints each run and each replay by it. The
//! contracts are those of `Report::of`, and of the laws in `states`: a report tells of the machine's state, and a state
//! has one report.
#![tactic(auto)]

mod left;
mod lines;
mod names;
mod of;
mod report;
mod rows;
mod states;

pub use report::{
    BRIEF_LEFT, Blocked, Cause, ConnectionLine, Failure, LeftPacket, Place, ProcessLine, Report,
    Verdict, Wait,
};
pub use states::{a_report_tells_of_its_state, a_state_has_one_report};
