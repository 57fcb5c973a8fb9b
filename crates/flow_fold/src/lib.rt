//! Components that fold: the texts of each stretch of a stream go into a state, and packets are made that tell of it at
//! the stretch's end. A kind of this form says what the state is, what a text makes of it and what is told of it
//! (`Fold`), and has its rule, its laws and its meaning over whole streams by that alone.
#![tactic(auto)]

mod count;
mod folder;
mod glue;
mod meanings;
#[cfg(test)]
mod tests;

pub use count::Count;
pub use folder::{Fold, Folder, FolderPlace, Stretch};
pub use glue::{Glue, Glued};
pub use meanings::{
    count_keeps_its_meaning, folder_comes_to_one_outcome, folder_hears_the_end,
    folder_keeps_its_meaning, glue_keeps_its_meaning,
};
