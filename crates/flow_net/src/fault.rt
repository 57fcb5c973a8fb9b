//! What can be wrong with a network.
use flow_items::Text;
use flow_plan::PortRef;
use std::alloc::{AllocError, AllocFailed};

/// What a network has too many of.
#[derive(Clone, Copy, Debug, PartialEq, Eq)]
pub enum Many {
    Processes,
    Connections,
    CapacitySum,
    Instances,
}

/// Why a network is refused. A fault begins with the name of its process.
#[derive(Debug, Drop, PartialEq, Eq)]
pub enum PlanFault {
    /// A process of this name is there already.
    SameName(Text),
    /// The process is of a kind that isn't in the table.
    UnknownKind(Text, Text),
    UnknownProcess(Text),
    PortUnknown(Text, PortRef),
    /// An option port, which takes no connection.
    NeedsInitial(Text, PortRef),
    /// A capacity that is out of range, or differs from the one that the connection has.
    Capacity(u32),
    /// A port that has its one connection or text already.
    PortTaken(Text, PortRef),
    /// A text that isn't of its option port's class, or that is no template for the pattern of its process.
    BadOption(Text, PortRef),
    /// A needed port that has neither a connection nor a text.
    PortMissing(Text, Text),
    /// An array's lowest element that has neither, below one that has.
    ElementGap(Text, Text, u32),
    TooMany(Many),
}

/// Why a call gives no plan.
#[derive(Debug, Drop, PartialEq, Eq)]
pub enum PlanStop {
    Fault(PlanFault),
    NoMemory,
}

impl From<AllocError> for PlanStop {
    ghost use Rattle.flow_net.specs.declared.fault.PlanStop.TheVariants.{NoMemory};
    ghost use Rattle.std.specs.Prelude.{◌≡◌};

    ghost from_gives = { λ _ e. e ≡ NoMemory };

    fn from(_: AllocError) -> Self {
        PlanStop::NoMemory
    }
}

impl<T: Drop> From<AllocFailed<T>> for PlanStop {
    ghost use Rattle.flow_net.specs.declared.fault.PlanStop.TheVariants.{NoMemory};
    ghost use Rattle.std.specs.Prelude.{◌≡◌};

    ghost from_gives = { λ _ e. e ≡ NoMemory };

    fn from(_: AllocFailed<T>) -> Self {
        PlanStop::NoMemory
    }
}
