//! Words of a network: how a network file of version 3, with texts for the words of its main part, is the text of a file without words, whose lines
//! are as in version 2. All else speaks of that text. The contracts are those of `fill` and `words_of`, and laws say what a filled text is.
#![tactic(auto)]

mod check;
mod fault;
mod law;
mod line;
mod place;
mod reading;
mod rows;
mod used;
mod whole;
mod word;

pub use fault::{FillFault, FillStop};
pub use law::{
    a_filled_file_has_no_words, a_words_line_becomes_its_text, an_outer_input_becomes_a_text,
    lines_keep_their_places, other_lines_stay,
};
pub use used::{join, used_of};
pub use whole::{fill, is_third, words_of};
pub use word::{FileWord, Given};
