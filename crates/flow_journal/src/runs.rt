//! What a run is, on one thread or by workers, and what a replay is, from the start of a network to its journal: the contracts of what makes the
//! turns and the machine's laws, joined.
ghost use Rattle.flow_journal.specs.Runs.{RoundsAreRuns, ReachesAreRuns, ReachesAreScheduled, ReplaysAreScheduled, StopsAreFromTheStart, StretchesGoAgain, SeesNoMoreThanTurns};

use flow_component::Component;
use flow_model::{
    every_schedule_keeps_the_packets, round_robins_are_schedules, schedules_lead_to_one_state,
    turns_and_works_are_schedules,
};

/// Where a network started from a plan with components that fit, and went round until it was quiet, its journal is a schedule from the plan's
/// start and the round robin, after each of whose prefixes each packet is in one place and each connection is in order; the network stands for
/// the state to which the whole journal leads, in which no process can go on.
pub fn a_round_of_a_net_is_a_run<K: Component>()
    ensures { RoundsAreRuns K.rules }
{
    every_schedule_keeps_the_packets::<K>();
    round_robins_are_schedules::<K>();
}

/// Where a network started from a plan with components that fit, and went on by turns and works in some order until no process could go on, its
/// journal is a schedule from the plan's start, after each of whose prefixes each packet is in one place and each connection is in order; the network
/// stands for the state to which the whole journal leads, in which no process can go on.
pub fn what_workers_reach_is_a_run<K: Component>()
    ensures { ReachesAreRuns K.rules }
{
    every_schedule_keeps_the_packets::<K>();
    turns_and_works_are_schedules::<K>();
}

/// Where a network started from a plan with components that fit, and went on by turns and works in some order, as one does that was paused, its journal
/// is a schedule from the plan's start, which leads to the state that the network stands for once the works that are still to come there are done. No
/// replay of that journal stops at a turn.
pub fn what_workers_reach_is_scheduled<K: Component>()
    ensures scheduled { ReachesAreScheduled K.rules }
    ensures again { StretchesGoAgain K.rules }
{
    every_schedule_keeps_the_packets::<K>();
    turns_and_works_are_schedules::<K>();
    schedules_lead_to_one_state::<K>();
}

/// Where a network started from a plan with components that fit, and made the turns of a journal again, that journal is a schedule from the
/// plan's start, after each of whose prefixes each packet is in one place and each connection is in order; the network stands for the state to
/// which the whole journal leads. Where the replay stopped at a turn, the journal stops at that turn from the plan's
/// start, for the same reason.
pub fn a_replay_of_a_net_is_scheduled<K: Component>()
    ensures scheduled { ReplaysAreScheduled K.rules }
    ensures stops { StopsAreFromTheStart K.rules }
{
    every_schedule_keeps_the_packets::<K>();
}

/// The journal of a schedule from a plan's start has no more seen numbers than turns, so that it can be written into a file.
pub fn a_schedule_sees_no_more_than_its_turns<K: Component>()
    ensures { SeesNoMoreThanTurns K.rules }
{}
