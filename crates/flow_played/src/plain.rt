ghost use Rattle.flow_played.specs.Plain.{AllRunAsTheyAre, AreOthers, TellsAsItIs, StandsInPlace};

use flow_component::Component;

/// A network in which components of the caller's own may stand, and none does, runs exactly as the network of its other components: it
/// has their schedules with their prefixes, their round robins and their runs, and no others.
pub fn a_network_without_own_components_runs_as_it_is<K: Component>()
    ensures { AllRunAsTheyAre K.rules }
{}

/// Components of which none is the caller's own are those of such a network.
pub fn components_without_own_ones_are_others<K: Component>()
    ensures { AreOthers K }
{}

/// What is told of its states is what is told of theirs: verdicts and reports, and which process stands where.
pub fn a_network_without_own_components_tells_as_it_is<K: Component>()
    ensures told { TellsAsItIs K }
    ensures in_place { StandsInPlace K }
{}
