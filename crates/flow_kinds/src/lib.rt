//! The page of the kinds: what each standard kind does, with its ports, and behind them those of a program's own.
//! `flow --kinds` prints it. The contracts are those of `kinds_page`, which has a row for each kind of the table in
//! `flow_catalogue`, in its order, and of `put_own_kinds`.
#![tactic(auto)]

mod page;
mod port;
mod purpose;

pub use page::{kinds_page, put_own_kinds};
