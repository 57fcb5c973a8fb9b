//! A run in stretches, by workers or on one thread, is one run: laws about what the contracts of the stretches say. With them a program that paused
//! a network and went on has of the whole what it would have of one run.
ghost use Rattle.flow_runner.specs.Stretches.{ReachesItself, StretchesAreOne, FloorsReach, FloorsAreOne, StartsStandWell, RoundsGoOn};

use flow_component::Component;
use flow_model::{every_step_keeps_a_state_fit, round_robins_are_schedules};

/// The turns and works of a stretch, and those of a next one that began where the first was paused, lead from the first net to the last one. `run` and
/// `run_for` say by their clause `reaches` that they are such stretches, and so does `solo` where it found no memory.
pub fn two_stretches_are_one<K: Component>()
    ensures none { ReachesItself K.rules }
    ensures two { StretchesAreOne K.rules }
{}

/// A floor that was opened and then closed or paused is such a stretch. Where the next floor is opened with its net, the turns that the workers of both
/// made are one list, in the order of their stamps.
pub fn two_floors_are_one<K: Component>()
    ensures reach { FloorsReach K.rules }
    ensures two { FloorsAreOne K.rules }
{}

/// A net at its start, or any that stands for a state in which all is well, may go on in stretches and then be run to its end by `solo`: that is a
/// stretch too, and the net is quiet after it.
pub fn a_round_is_a_stretch<K: Component>()
    ensures starts { StartsStandWell K.rules }
    ensures rounds { RoundsGoOn K.rules }
{
    every_step_keeps_a_state_fit::<K>();
    round_robins_are_schedules::<K>();
}
