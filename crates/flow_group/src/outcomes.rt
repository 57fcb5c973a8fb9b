//! That each component of this crate comes to one outcome.
ghost use Rattle.flow_component.specs.Laws.{AtMostOneOutcome};

use crate::{Flat, Group};
use flow_component::Component;

/// Told the same in the same state with the same hands, each of them comes to at most one outcome.
pub fn each_comes_to_one_outcome()
    ensures group { AtMostOneOutcome ⟦<Group as Component>⟧.rules }
    ensures flat { AtMostOneOutcome ⟦<Flat as Component>⟧.rules }
{}
