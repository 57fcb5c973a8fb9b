//! Why a text gives no plan.
use flow_flat::ExpandFault;
use flow_net::{PlanFault, PlanStop};
use std::alloc::{AllocError, AllocFailed};

/// Why the text of a network gives no plan.
#[derive(Debug, Drop, PartialEq, Eq)]
pub enum ExpandStop {
    Fault(ExpandFault),
    NoMemory,
}

impl From<PlanStop> for ExpandStop {
    ghost use Rattle.std.specs.Prelude.{◌≡◌};
    ghost use Rattle.flow_expand.specs.Outcomes.{stop_of};

    ghost from_gives = { λ stop e. e ≡ stop_of stop };

    fn from(stop: PlanStop) -> Self {
        match stop {
            PlanStop::Fault(fault) => ExpandStop::Fault(ExpandFault::Plan(fault)),
            PlanStop::NoMemory => ExpandStop::NoMemory,
        }
    }
}

impl From<AllocError> for ExpandStop {
    ghost use Rattle.std.specs.Prelude.{◌≡◌};
    ghost use Rattle.flow_expand.specs.declared.stop.ExpandStop.TheVariants.{NoMemory};

    ghost from_gives = { λ _ e. e ≡ NoMemory };

    fn from(_: AllocError) -> Self {
        ExpandStop::NoMemory
    }
}

impl<T: Drop> From<AllocFailed<T>> for ExpandStop {
    ghost use Rattle.std.specs.Prelude.{◌≡◌};
    ghost use Rattle.flow_expand.specs.declared.stop.ExpandStop.TheVariants.{NoMemory};

    ghost from_gives = { λ _ e. e ≡ NoMemory };

    fn from(_: AllocFailed<T>) -> Self {
        ExpandStop::NoMemory
    }
}
