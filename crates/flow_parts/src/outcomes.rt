//! That each component of this crate comes to one outcome.
ghost use Rattle.flow_component.specs.Laws.{AtMostOneOutcome};

use crate::{Brackets, Count, Fill, ReadLines, Tally, Words, WriteLines};
use flow_component::Component;

/// Told the same in the same state with the same hands, each of them comes to at most one outcome.
pub fn each_comes_to_one_outcome()
    ensures brackets { AtMostOneOutcome ⟦<Brackets as Component>⟧.rules }
    ensures fill { AtMostOneOutcome ⟦<Fill as Component>⟧.rules }
    ensures read_lines { AtMostOneOutcome ⟦<ReadLines as Component>⟧.rules }
    ensures words { AtMostOneOutcome ⟦<Words as Component>⟧.rules }
    ensures write_lines { AtMostOneOutcome ⟦<WriteLines as Component>⟧.rules }
    ensures tally { AtMostOneOutcome ⟦<Tally as Component>⟧.rules }
    ensures count { AtMostOneOutcome ⟦<Count as Component>⟧.rules }
{}
