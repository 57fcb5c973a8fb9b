//! What the report of a paused network tells.
ghost use Rattle.flow_witness.specs.Paused.{PausedNetsTell};

use flow_component::Component;
use flow_journal::what_workers_reach_is_scheduled;
use flow_report::a_report_tells_of_its_state;

/// Where a network started from a plan with components that fit, and went on by turns and works in some order, as one does that was paused, and no work is
/// still to come in it, its journal is a schedule from the plan's start, and its report tells of the state to which that leads, also where a process can go on.
pub fn a_paused_network_tells_of_its_schedule<K: Component>()
    ensures { PausedNetsTell K.rules }
{
    what_workers_reach_is_scheduled::<K>();
    a_report_tells_of_its_state::<K>();
}
