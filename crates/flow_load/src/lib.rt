//! What a call does before and behind its turns: its words and files become the task that is to be done, and the files
//! of a run are written. `flow_cli` does the task, and `flow_draw` reads by it what it draws. The contracts are those of
//! `prepare`, which tells each stop by its cause (`specs/Causes.antt`), and of `write_files`.
#![tactic(auto)]

mod before;
mod components;
mod front;
mod inputs;
mod journal_file;
mod made_job;
mod made_plan;
mod many;
mod net_file;
mod offers;
mod parts;
mod status;
mod step;
mod stop;
mod tapes;

pub use before::{Again, Job, Task, prepare};
pub use components::played_components;
pub use front::read_front;
pub use inputs::read_inputs;
pub use journal_file::read_journal;
pub use made_job::{MadeJob, job_of_make};
pub use made_plan::the_made_network_has_a_plan;
pub use many::{Output, write_files};
pub use net_file::{NetFile, network};
pub use offers::{OwnKind, kinds_and_parts};
pub use status::Status;
pub use step::{read_file, write_file};
pub use stop::{
    JournalRefusal, NetRefusal, Stop, TapesRefusal, read_stop, replay_stop, write_stop,
};
pub use tapes::read_tapes;
