//! Parts that are made when a network wants them: a maker is told the options of each process of a kind of the caller's
//! own, and makes its part. A top call is handed as many parts of each kind as the network has processes of it, in the
//! order in which the processes take them. The contracts are those of `parts_of_plan` and `supplied`, over the
//! definitions in `specs`.
#![tactic(auto)]

mod asked;
mod made;
mod maker;
mod supply;

pub use asked::Asked;
pub use made::parts_of_plan;
pub use maker::Maker;
pub use supply::supplied;
