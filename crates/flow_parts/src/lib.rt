//! Components on the lines of files. `flow_catalogue` offers them to networks by their kinds' names. Each one's
//! contract is that of the trait with its own rules in `specs/`, and `meanings` has a law of each: what leaves it as a
//! whole stream, for what came.
#![tactic(auto)]

mod brackets;
mod count;
mod fill;
mod meanings;
mod outcomes;
mod read_lines;
mod tally;
mod words;
mod write_lines;

pub use brackets::Brackets;
pub use count::Count;
pub use fill::{Fill, FillPlace};
pub use meanings::{
    brackets_keeps_its_meaning, count_keeps_its_meaning, fill_keeps_its_meaning,
    read_lines_keeps_its_meaning, tally_keeps_its_meaning, words_keeps_its_meaning,
    write_lines_keeps_its_meaning,
};
pub use outcomes::each_comes_to_one_outcome;
pub use read_lines::ReadLines;
pub use tally::{Tally, TallyPlace};
pub use words::Words;
pub use write_lines::WriteLines;
