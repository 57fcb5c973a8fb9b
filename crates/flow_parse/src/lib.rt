//! Network files: which value a file spells, and which fault a file has that spells none. `flow_load` reads each
//! network file by it, and `flow_cli` prints the canonical spelling. The contracts are those of `parse` and `print`,
//! and a law says that a file has one value or one fault.
#![tactic(auto)]

mod fault;
mod file;
mod form;
mod law;
mod line;
mod mentions;
mod name;
mod names;
mod printed;
mod reader;
mod row;
mod same;
mod statements;
mod stop;
mod subnets;
mod table;
mod token;
mod value;

pub use fault::{NetFault, ParseStop, Reason};
pub use file::parse;
pub use law::a_file_has_one_outcome;
pub use name::{RESERVED, is_reserved};
pub use names::Names;
pub use printed::print;
pub use value::{FIRST_VERSION, NetPart, NetText, SECOND_VERSION, Statement, THIRD_VERSION};
