//! The file of tapes, by which a run with components of the caller's own (`flow_own`) is made again without them.
//! `flow_cli` writes it behind a run, and `flow_load` reads it before a replay. The contracts are those of `to_bytes`,
//! `from_bytes`, `from_vec`, `so_many_from_vec` and `number_of_tapes`, and a law says that a file has one list of tapes or one fault.
#![tactic(auto)]

mod count;
mod fault;
mod file;
mod law;
mod letters;
mod parse;

pub use count::{number_of_tapes, so_many_from_vec};
pub use fault::{CountStop, TapeFault, TapeStop};
pub use file::to_bytes;
pub use law::a_file_has_one_list_of_tapes_or_one_fault;
pub use parse::{from_bytes, from_vec};

/// The most bytes of a tape file that a replay reads. The tapes of a run may have a longer one.
pub const TAPE_FILE_LIMIT: u64 = 1_073_741_824;
