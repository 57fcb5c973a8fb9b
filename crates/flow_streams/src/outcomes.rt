//! That each component of this crate comes to one outcome.
ghost use Rattle.flow_component.specs.Laws.{AtMostOneOutcome};

use crate::{
    Bundle, Collate, Concat, Copy, Discard, Hoard, LoadBalance, Passthru, Select, Unbundle,
};
use flow_component::Component;

/// Told the same in the same state with the same hands, each of them comes to at most one outcome.
pub fn each_comes_to_one_outcome()
    ensures bundle { AtMostOneOutcome ⟦<Bundle as Component>⟧.rules }
    ensures collate { AtMostOneOutcome ⟦<Collate as Component>⟧.rules }
    ensures concat { AtMostOneOutcome ⟦<Concat as Component>⟧.rules }
    ensures copies { AtMostOneOutcome ⟦<Copy as Component>⟧.rules }
    ensures discard { AtMostOneOutcome ⟦<Discard as Component>⟧.rules }
    ensures hoard { AtMostOneOutcome ⟦<Hoard as Component>⟧.rules }
    ensures passthru { AtMostOneOutcome ⟦<Passthru as Component>⟧.rules }
    ensures unbundle { AtMostOneOutcome ⟦<Unbundle as Component>⟧.rules }
    ensures load_balance { AtMostOneOutcome ⟦<LoadBalance as Component>⟧.rules }
    ensures select { AtMostOneOutcome ⟦<Select as Component>⟧.rules }
{}
