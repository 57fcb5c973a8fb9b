//! What can be wrong with the text of a network.
use flow_items::Text;
use flow_net::PlanFault;
use flow_plan::PortRef;

/// Why the text of a network gives no plan. A process is named by its flat name.
#[derive(Debug, Drop, PartialEq, Eq)]
pub enum ExpandFault {
    /// A subnet that is met inside itself.
    Recursive(Text),
    /// A process inside nine subnets.
    Depth(Text),
    /// A process that is a subnet has no such outer port, or has it twice.
    OuterPort(Text, PortRef),
    Plan(PlanFault),
}
