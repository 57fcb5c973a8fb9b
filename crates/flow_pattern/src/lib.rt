//! Patterns: whether a text is one, or else where it goes wrong; whether one matches in a text, and where; and the text
//! with its matches replaced, by a text as it is or by one that is filled in with what the groups of the match hold.
//! Options for a pattern are tested with it when a plan is made, and the components of `flow_match` and `flow_find`
//! search with it. The contracts are those of `is_pattern`, `slip_in`, `is_template`, `template_slip_in`, `Finder`,
//! `Locator`, `Replacer` and `Filler`: they cite what the crate `regex` says of a pattern.
#![tactic(auto)]

mod calls;
mod filler;
mod finder;
mod locator;
mod needles;
mod reading;
mod replacer;
mod steps;
mod template;

pub use filler::Filler;
pub use finder::Finder;
pub use locator::Locator;
pub use reading::{Slip, is_pattern, is_too_large, slip_in};
pub use replacer::{Replacer, Rewritten};
pub use template::{is_template, template_slip_in};
