//! Turns that only clauses read.
ghost use Rattle.std.specs.Prelude.{ℕ, List};

use flow_component::Component;
use flow_floor::Worker;
use std::marker::Model;

/// The turns that each of some workers made, in the order of the workers: each turn by its stamp and its process. It has no bytes, and says nothing of the
/// components that the workers ran.
#[derive(Drop)]
pub struct Turns {
    pub(crate) ghost each: { List (List (ℕ × ℕ)) },
}

impl Model for Turns {
    ghost use Rattle.std.specs.Borrow.{ftrue};

    ghost also_owns = { λ _. ftrue };
}

impl Turns {
    ghost use Rattle.flow_runner.specs.Crews.{made_each};
    ghost use Rattle.std.specs.Prelude.{◌≡◌, []};

    /// Nobody's turns.
    pub(crate) fn none() -> Turns
        ensures { result.each ≡ [] }
    {
        Turns {}
    }

    /// The turns of these workers.
    pub(crate) fn of<K: Component>(workers: &Vec<Worker<K>>) -> Turns
        ensures { result.each ≡ made_each workers.now.items }
    {
        let _ = workers;
        Turns {}
    }
}
