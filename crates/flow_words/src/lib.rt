//! The words of the command line, read by the toolkit's `clap`. `flow_load` asks it which call the words are. The
//! contract is that of `command`: for every list of words the one call that they spell, or that they spell none.
#![tactic(auto)]

mod argument;
mod asked;
mod form;
mod pages;
mod words;

pub use asked::{Command, Page, ReportCommand, RunCommand};
pub use pages::{help_page, version_line};
pub use words::{command, tells_progress};
