//! The journal of a run: which process made each turn; its file; and how a run is made again by it. `flow_cli` keeps
//! journals and replays by it. The contracts are those of `Journal`, of `replay`, and of the laws in `runs`, which say
//! what a run and what a replay is.
#![tactic(auto)]

mod again;
mod fault;
mod file;
mod header;
mod law;
mod merge;
mod parse;
mod refusal;
mod runs;
mod turn;

pub use again::replay;
pub use fault::{JournalFault, JournalStop};
pub use file::HEADER_LENGTH;
pub use header::Header;
pub use law::{a_file_has_one_journal_or_one_fault, a_journal_that_stops_is_no_schedule};
pub use merge::Journal;
pub use refusal::{Refusal, ReplayStop};
pub use runs::{
    a_replay_of_a_net_is_scheduled, a_round_of_a_net_is_a_run,
    a_schedule_sees_no_more_than_its_turns, what_workers_reach_is_a_run,
    what_workers_reach_is_scheduled,
};
