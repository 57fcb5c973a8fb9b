//! That the component comes to one outcome.
ghost use Rattle.flow_component.specs.Laws.{AtMostOneOutcome};

use crate::Where;
use flow_component::Component;

/// Told the same in the same state with the same hands, it comes to at most one outcome.
pub fn comes_to_one_outcome()
    ensures { AtMostOneOutcome ⟦<Where as Component>⟧.rules }
{}
