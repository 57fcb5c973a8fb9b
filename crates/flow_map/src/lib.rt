//! Components that map: each Normal packet gives way to the packets that are made of its text. A kind of this form says
//! what is made of a text (`Maps`), and has its rule, its laws and its meaning over whole streams by that alone.
#![tactic(auto)]

mod letters;
mod mapper;
mod meanings;

pub use letters::{LetterCase, Letters};
pub use mapper::{Made, Mapper, MapperPlace, Maps, Told};
pub use meanings::{
    letters_keeps_its_meaning, mapper_comes_to_one_outcome, mapper_hears_the_end,
    mapper_keeps_its_meaning, parts_make_the_whole,
};
