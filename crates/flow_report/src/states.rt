//! What a report tells of the network machine.
ghost use Rattle.flow_model.specs.States.{State};
ghost use Rattle.flow_report.specs.States.{HasOneReport, ReportsTell};

use flow_component::Component;

/// The report of a network tells of each state of the machine that the network stands for and a schedule reaches: the verdict is
/// the machine's, each process that is blocked or has failed is named, in a deadlock the cycle of those that wait for one another is
/// told, and the totals are the state's.
pub fn a_report_tells_of_its_state<K: Component>()
    ensures { ReportsTell K.rules }
{}

/// One report at most tells of a state of the machine: so two networks that stand for one state, and two runs that end in it, have one report.
pub fn a_state_has_one_report<K: Component>()
    ensures { (s : State K) → HasOneReport s }
{}
