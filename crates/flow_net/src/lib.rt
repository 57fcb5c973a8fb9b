//! Builds plans of networks, call by call. `flow_expand` tells it the statements of a file, and a program of the
//! caller's own may tell it others. The contracts are those of `PlanBuilder`: each call says which fault there is, and
//! `finish` gives a plan that is valid and is the one of the calls.
#![tactic(auto)]

mod begin;
mod builder;
mod check;
mod counted;
mod draft;
mod fault;
mod find;
mod finish;
mod give;
mod join;
mod lay;
mod options;
mod templates;

pub use builder::PlanBuilder;
pub use fault::{Many, PlanFault, PlanStop};
pub use options::first_field;
