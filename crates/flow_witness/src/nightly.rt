//! A batch update as a plan: the network of worked masters and details.
ghost use Rattle.flow_witness.specs.Nightly.{NightlyMeans};

/// The network of two readers, a Collate and an Update of keys of two bytes, and two writers, which is written out in
/// `specs/Nightly.antt`, is a batch update; and in each of its compositions on the worked masters and details its writers have the
/// files that are worked out there.
pub fn the_nightly_network_is_a_batch_update()
    ensures { NightlyMeans }
{}
