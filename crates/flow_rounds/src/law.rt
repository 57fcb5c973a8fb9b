//! What runs by rounds are as a whole.
ghost use Rattle.flow_rounds.specs.Whole.{ReadsAsWhole, WritesAsWhole, FedIsWhole};
ghost use Rattle.flow_rounds.specs.Rounds.{RoundsReachWhole, RoundsAreOneSchedule};
ghost use Rattle.flow_rounds.specs.Left.{StepsLeaveFiles};
ghost use Rattle.flow_rounds.specs.Steps.{StepsAreRobin};
ghost use Rattle.flow_rounds.specs.FedSteps.{RoundsAreRobin};
ghost use Rattle.flow_rounds.specs.Standard.{StandardHaveFiles};

use flow_component::Component;

/// A reader that is given its file piece by piece does what the reader of the whole file does.
pub fn a_reader_of_pieces_reads_the_whole_file()
    ensures { ReadsAsWhole }
{}

/// A writer from which its bytes are taken piece by piece does what a writer with all of them does.
pub fn a_writer_of_pieces_writes_the_whole_file()
    ensures { WritesAsWhole }
{}

/// Each component of a network whose files come and go piece by piece does what that of the network of the whole files
/// does.
pub fn a_fed_network_is_that_of_its_files<K: Component>()
    ensures { FedIsWhole K.rules }
{}

/// Turns and works in any order, with processes tended between them, are turns and works of the network of the whole
/// files; where no work is pending before and after them, their turns are one schedule of it.
pub fn a_run_by_rounds_is_one_schedule<K: Component>()
    ensures reaches { RoundsReachWhole K.rules }
    ensures schedule { RoundsAreOneSchedule K.rules }
{}

/// Turns and works in any order leave all that the readers were given, whether they have ended, and what was taken from
/// the writers: only who tends them changes it.
pub fn turns_leave_the_files<K: Component>()
    ensures { StepsLeaveFiles K.rules }
{}

/// Where no work is pending, steps of one thread from the beginning of a pass to the end of one without a turn are the
/// round robin, wherever the thread rested between them: also between a turn and its work.
pub fn steps_are_a_round_robin<K: Component>()
    ensures { StepsAreRobin K.rules }
{}

/// Such steps over a network whose files come and go piece by piece, with processes tended between them, are the round
/// robin of the network of the whole files, whatever these are of which the readers were given the fronts: so the turns
/// don't depend on the pieces.
pub fn rounds_of_one_thread_are_its_round_robin<K: Component>()
    ensures { RoundsAreRobin K.rules }
{}

/// Among the standard components there are a reader of any lines and a writer of any bytes.
pub fn standard_components_read_and_write_files()
    ensures { StandardHaveFiles }
{}
