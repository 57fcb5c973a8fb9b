//! What a Sort makes of its stream: each law is the contract of a function that does nothing.
ghost use Rattle.flow_component.specs.Laws.{AtMostOneOutcome};
ghost use Rattle.flow_sort.specs.Meanings.{SortMeaning, IsTheStableSort};

use crate::sort::Sort;
use flow_component::Component;

/// Told the same in the same state with the same hands, a Sort comes to at most one outcome.
pub fn sort_comes_to_one_outcome()
    ensures { AtMostOneOutcome ⟦<Sort as Component>⟧.rules }
{}

/// The sorted list of packets is a stable sort of them, and there is no other.
pub fn stable_sort_is_the_only_one()
    ensures { IsTheStableSort }
{}

/// What a Sort that has come to its end has sent is what it got, with each stretch between brackets sorted.
pub fn sort_keeps_its_meaning()
    ensures { SortMeaning }
{}
