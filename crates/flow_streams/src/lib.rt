//! Components on streams of packets. `flow_catalogue` offers them to networks by their kinds' names. Each one's
//! contract is that of the trait with its own rules in `specs/`, and `meanings` has a law of each: what leaves it as a
//! whole stream, for what came.
#![tactic(auto)]

mod bundle;
mod collate;
mod concat;
mod copy;
mod discard;
mod hoard;
mod load_balance;
mod meanings;
mod outcomes;
mod passthru;
mod select;
mod unbundle;

pub use bundle::Bundle;
pub use collate::{Collate, CollatePlace};
pub use concat::Concat;
pub use copy::{Copy, CopyPlace};
pub use discard::Discard;
pub use hoard::Hoard;
pub use load_balance::{LoadBalance, LoadPlace};
pub use meanings::{
    bundle_keeps_its_meaning, collate_keeps_its_meaning, concat_keeps_its_meaning,
    copy_keeps_its_meaning, discard_keeps_its_meaning, hoard_keeps_its_meaning,
    load_balance_keeps_its_meaning, passthru_keeps_its_meaning, select_keeps_its_meaning,
    unbundle_keeps_its_meaning,
};
pub use outcomes::each_comes_to_one_outcome;
pub use passthru::Passthru;
pub use select::{Select, SelectPlace};
pub use unbundle::Unbundle;
