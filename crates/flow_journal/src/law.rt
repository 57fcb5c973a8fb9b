//! What journal files are to journals, and what stops are to schedules: each law is the contract of a function that does nothing.
ghost use Rattle.flow_journal.specs.Files.{HasOneJournal, HasJournalOrFault, HasOneFault};
ghost use Rattle.flow_journal.specs.Replays.{StopsAreNoSchedules};

use flow_component::Component;
use flow_model::schedules_lead_to_one_state;

/// A journal has one file, by its definition; a file is that of one journal. What has a fault is the file of no journal, and has
/// that one fault.
pub fn a_file_has_one_journal_or_one_fault()
    ensures journal { HasOneJournal }
    ensures apart { HasJournalOrFault }
    ensures fault { HasOneFault }
{}

/// Where components come to one outcome, a journal that stops at a turn is no schedule.
pub fn a_journal_that_stops_is_no_schedule<K: Component>()
    ensures { StopsAreNoSchedules K.rules }
{
    schedules_lead_to_one_state::<K>();
}
