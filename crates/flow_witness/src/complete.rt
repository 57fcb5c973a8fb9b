//! That what the top calls ask before they promise to come to their end can be had.
ghost use Rattle.flow_witness.specs.Complete.{PremisesAreMet};
ghost use Rattle.flow_witness.specs.Lone.{PremisesWithPartsAreMet};

use flow_catalogue::Std;
use flow_journal::a_file_has_one_journal_or_one_fault;
use flow_model::{a_valid_plan_is_ready, every_schedule_keeps_the_packets};
use flow_offer::own_components_fit;
use flow_played::{
    Played, a_network_without_own_components_runs_as_it_is,
    a_network_without_own_components_tells_as_it_is,
};
use flow_tape::a_file_has_one_list_of_tapes_or_one_fault;

/// For a run, a check, a judge and a replay of a network with a LoadBalance there are calls, over a shelf that tells what it holds, in which
/// no count of faults rises and what is read is valid, and which come to their end. The replay's journal, whose level turns saw numbers, is a
/// schedule of the network on its reader's one line.
pub fn the_premises_of_completeness_are_met()
    ensures { PremisesAreMet }
{
    a_valid_plan_is_ready::<Std>();
    every_schedule_keeps_the_packets::<Std>();
    a_network_without_own_components_runs_as_it_is::<Std>();
    a_network_without_own_components_tells_as_it_is::<Std>();
    a_file_has_one_journal_or_one_fault();
}

/// For a run of a network with a component of the caller's own, and for a replay of it by a caller that has no part, with a file of tapes, there are such calls
/// too. The part fails as soon as it is started, and the replay tells so as the run does.
pub fn the_premises_with_parts_are_met()
    ensures { PremisesWithPartsAreMet }
{
    a_valid_plan_is_ready::<Played<Std>>();
    own_components_fit::<Std>();
    every_schedule_keeps_the_packets::<Played<Std>>();
    a_file_has_one_journal_or_one_fault();
    a_file_has_one_list_of_tapes_or_one_fault();
}
