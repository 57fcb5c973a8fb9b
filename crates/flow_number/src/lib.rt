//! A component of the caller's own, as an example: it numbers the packets of a stream. The program `flow` hands its
//! kind to the top calls of `flow_cli`, and the trials of such components run it. Its contract is that of the trait
//! `Part` in `flow_own`; the kind has its own, in `number_kind`.
#![tactic(auto)]

mod kind;
mod number;

pub use kind::{number_is_an_own_kind, number_kind};
pub use number::Number;
