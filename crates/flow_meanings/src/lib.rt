//! What networks of standard components mean. The top call's contract cites it: what stands in the files of a finished
//! run is a composition of its kinds' meanings, whatever the schedule. The laws are in `outcomes`.
#![tactic(auto)]

mod outcomes;

ghost use Rattle.flow_meanings.specs.Means.{KeepsMeanings};
ghost use Rattle.flow_meanings.specs.Composition.{FinishedComposes};
ghost use Rattle.flow_meanings.specs.Batches.{BatchMeans, EndedCollates};
ghost use Rattle.flow_meanings.specs.SortingBatches.{SortingBatchMeans};
ghost use Rattle.flow_meanings.specs.Chains.{TelegramMeans};

pub use outcomes::{a_network_without_merges_means_one_outcome, components_of_a_plan_are_first};

/// After every schedule each process of a standard kind that has ended has made of its streams what its kind means.
pub fn every_ended_process_has_its_meaning()
    ensures { KeepsMeanings }
{}

/// Where a network has finished, its files are the composition of the meanings of its processes, along its connections.
pub fn a_finished_network_composes_its_meanings()
    ensures { FinishedComposes }
{}

/// In a chain of a reader, a Words, a Fill and a writer, the writer has written the lines of the one filling of the words of what was read.
pub fn a_telegram_is_the_filling_of_its_words()
    ensures { TelegramMeans }
{}

/// After every schedule each Collate that has ended has sent the collation of what its elements got.
pub fn an_ended_collate_has_sent_the_collation()
    ensures { EndedCollates }
{}

/// Where a network has a batch update of a sorted master file by a sorted detail file, its two writers have written the book of the
/// masters followed by the details.
pub fn a_batch_update_writes_its_book()
    ensures { BatchMeans }
{}

/// Where a network has a batch update of a master file by a detail file, both of which it sorts, its two writers have written the book
/// of the masters followed by the details, as they came.
pub fn a_batch_update_that_sorts_writes_its_book()
    ensures { SortingBatchMeans }
{}
