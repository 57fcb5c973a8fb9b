//! Networks whose schedules all leave the same files, if they finish.
ghost use Rattle.flow_meanings.specs.Outcomes.{OneOutcome, SameFiles, PlanSameFiles, ComponentsAreFirst};

/// Where no connection has two senders and each component's meaning settles what it sends, all schedules that finish leave the same
/// files: no connection leads back in a network that finishes, and such a network means one outcome. A determinate plan is such
/// a one.
pub fn a_network_without_merges_means_one_outcome()
    ensures one { OneOutcome }
    ensures files { SameFiles }
    ensures of_a_plan { PlanSameFiles }
{}

/// The components of a plan's processes, as its kinds and options make them, are in the first states of which their meanings speak.
pub fn components_of_a_plan_are_first()
    ensures { ComponentsAreFirst }
{}
