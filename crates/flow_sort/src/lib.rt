//! The component that sorts a stream. `flow_catalogue` offers it to networks by its kind's name. Its contract is that of
//! the trait with its own rules in `specs/`, and `meanings` has the law of what leaves it as a whole stream.
#![tactic(auto)]

mod meanings;
mod sort;

pub use meanings::{
    sort_comes_to_one_outcome, sort_keeps_its_meaning, stable_sort_is_the_only_one,
};
pub use sort::{Sort, SortPlace};
