//! The words of the command line.
ghost use Rattle.std.specs.Prelude.{IfSome};
ghost use Rattle.flow_bench.specs.Asked.{MayBeAsked};

use crate::{again, chain, race};

/// What the words ask for.
#[derive(Drop)]
pub enum Benchmark<'a> {
    /// A chain of this size.
    Chain(chain::ChainSize),
    /// A race of this size.
    Race(race::RaceSize),
    /// A run by workers, and what it is compared with.
    Again(again::Comparison<'a>),
}

/// What these words ask for: the first names what, the others how large it is, or over which files.
pub fn asked_by(words: &[String]) -> Option<Benchmark<'_>>
    ensures { IfSome result MayBeAsked }
{
    let (first, others) = words.split_first()?;
    match first.as_str() {
        "chain" => Some(Benchmark::Chain(chain::ChainSize::named(others)?)),
        "race" => Some(Benchmark::Race(race::RaceSize::named(others)?)),
        "again" => Some(Benchmark::Again(again::asked_by(others)?)),
        _ => None,
    }
}
