//! Which process of a plan is of which kind.

ghost use Rattle.std.specs.Prelude.{◌≡◌, ◌<◌, length};
ghost use Rattle.flow_offer.specs.Laws.{EachIsStandardOrOwn};
ghost use Rattle.flow_offer.specs.Processes.{place_of, own_place, IsStandardOrOwn, IsOfferedPlan};

use flow_catalogue::a_plan_over_more_kinds_is_standard_beside_them;
use flow_plan::{KindSpec, Plan};

/// In a valid plan over the standard kinds and the caller's own each process is of one of them: of a standard kind
/// where it has no place among the caller's own, and else of the kind at that place.
pub fn each_process_is_standard_or_own()
    ensures { EachIsStandardOrOwn }
{
    a_plan_over_more_kinds_is_standard_beside_them();
}

/// The place of the kind of this name among the caller's own, if one has it.
pub(crate) fn place_of(own: &[KindSpec], name: &[u8]) -> Option<usize>
    ensures { result ≡ place_of own.now name.now }
{
    own.iter().position(|kind| kind.name.as_slice() == name)
}

/// The place of a process's kind among the caller's own; none exactly where it is of a standard kind. Takes no
/// memory.
pub fn own_kind(plan: &Plan, process: u32, own: &[KindSpec]) -> Option<usize>
    requires offered { IsOfferedPlan own.now plan.now }
    requires there { process < length plan.now.processes }
    ensures place { result ≡ own_place own.now plan.now process }
    ensures tells { IsStandardOrOwn own.now plan.now process result }
{
    each_process_is_standard_or_own();
    place_of(own, plan.processes()[process as usize].kind.as_slice())
}
