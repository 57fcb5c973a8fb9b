//! The top calls: words in, files read and written, a report printed. The program `flow` makes them over real files,
//! and trials over files in memory. The contract is that of `plain_top` and `busy_top`, one record of promises for both
//! (`specs/Promises.antt`): the sentence that the whole project carries.
#![tactic(auto)]

mod after;
mod again;
mod begin;
mod crew;
mod live;
mod made;
mod outputs;
mod over;
mod ran;
mod run;
mod start;
mod top;
mod watch;

pub use after::{print_text, verdict_status, write_outputs};
pub use again::replay_net;
pub use crew::{run_alone, run_by_workers};
pub use flow_load::{OwnKind, Status};
pub use live::{LiveNet, LiveWorked};
pub use outputs::written_name;
pub use ran::{Account, PrintedReport, Ran, report_of};
pub use run::{Done, KeptFile, Said, Unwritten};
pub use top::{Outcome, busy_top, busy_top_past, needs_workers, plain_top, plain_top_past};
pub use watch::Watch;
