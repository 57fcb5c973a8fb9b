//! What holds of networks with players: each law is the contract of a function that does nothing.
ghost use Rattle.flow_played.specs.Rules.{PlayersAreFunctions};
ghost use Rattle.flow_played.specs.Played.{PlaysRuns};
ghost use Rattle.flow_played.specs.Runs.{PlayersInOrder, PlayersStandAtStart, PlayersStartWell, PlaysSchedules, PlaysWholeRuns, PlayersEndAlike};
ghost use Rattle.flow_played.specs.Telling.{PlayersAreQuiet, PlayersStandInPlace, PlayersAreToldOf};
ghost use Rattle.flow_played.specs.Kept.{PartsStay};

use crate::played::Played;
use flow_component::Component;
use flow_model::{every_schedule_keeps_the_packets, schedules_lead_to_one_state};

/// Let a journal lead from one state to another in which no component of the caller's own is a player. Then it leads so from the first state
/// to the second with the players of the tapes of the second in their places, each at the place to which its tape had come.
pub fn a_run_is_one_of_its_players<K: Component>()
    ensures { PlaysRuns K.rules }
{}

/// Where all other components come to at most one outcome, so does each component of a network in which those of the caller's own are players.
pub fn players_come_to_one_outcome<K: Component>()
    ensures { PlayersAreFunctions K.rules }
{}

/// Players before their first entries stand for parts on whose tapes nothing is yet, and fit a plan where these do.
pub fn players_start_well<K: Component>()
    ensures each { PlayersInOrder K }
    ensures start { PlayersStandAtStart K }
    ensures well { PlayersStartWell K.rules }
{}

/// A run from the start of a plan, with nothing on the tapes, is one of the players of the tapes that it leads to: by as many workers,
/// after each of whose prefixes each packet is in one place and each connection is in order, and the round robin without workers.
pub fn a_run_of_parts_is_one_of_players<K: Component>()
    ensures schedules { PlaysSchedules K.rules }
    ensures runs { PlaysWholeRuns K.rules }
{
    every_schedule_keeps_the_packets::<Played<K>>();
}

/// A replay of a schedule by the players of its tapes ends in the state with these players, and in no other, where all other components
/// come to at most one outcome.
pub fn players_end_as_the_parts_did<K: Component>()
    ensures { PlayersEndAlike K.rules }
{
    schedules_lead_to_one_state::<Played<K>>();
}

/// What is told of a state is told of it with players too: whether a process can go on, what stands at each place, and all that a report tells.
pub fn players_are_told_of<K: Component>()
    ensures quiet { PlayersAreQuiet K }
    ensures places { PlayersStandInPlace K }
    ensures report { PlayersAreToldOf K }
{}

/// A part of the caller's own stays one throughout a run: none becomes a player.
pub fn parts_stay_parts<K: Component>()
    ensures { PartsStay K.rules }
{}
