//! The parts of the processes of a plan, each made of the options of its process.
ghost use Rattle.std.specs.Prelude.{◌≡◌, ◌<◌, ℕ, IfOk, length, slice_index};
ghost use Rattle.flow_offer.specs.Processes.{IsOfferedPlan, IsOwnOf};
ghost use Rattle.flow_offer.specs.Shares.{FindsPart};
ghost use Rattle.flow_load.specs.Offers.{counts_of, parts_in};
ghost use Rattle.flow_supply.specs.Made.{AreMade, AreMadeOf, IsMadeFor, counts_wanted};

use crate::asked::Asked;
use crate::maker::Maker;
use flow_offer::{each_process_is_standard_or_own, own_kind};
use flow_plan::{KindSpec, Plan};
use std::alloc::{AllocError, Global};

/// The parts of each kind: as many as the plan has processes of it, each made of its process's options, in the order of
/// the processes.
pub fn parts_of_plan<M: Maker>(
    alloc: Global,
    plan: &Plan,
    own: &[KindSpec],
    maker: &M,
) -> Result<Vec<Vec<M::Part>>, AllocError>
    requires { IsOfferedPlan own.now plan.now }
    ensures count { IfOk result (λ parts. length parts.items ≡ length own.now) }
    ensures many { IfOk result (λ parts. counts_of parts.items ≡ counts_wanted own.now plan.now) }
    ensures made { IfOk result (λ parts. AreMade M.makes maker.now own.now plan.now (parts_in parts.items)) }
    ensures enough { IfOk result (λ parts. (p : ℕ) → FindsPart own.now (counts_of parts.items) plan.now p) }
{
    each_process_is_standard_or_own();
    let mut parts = Vec::new(alloc);
    for place in 0..own.len() {
        parts.push(parts_of_kind(alloc, plan, own, place, maker)?)?;
    }
    Ok(parts)
}

// The parts of the kind at this place, one for each process of it.
fn parts_of_kind<M: Maker>(
    alloc: Global,
    plan: &Plan,
    own: &[KindSpec],
    place: usize,
    maker: &M,
) -> Result<Vec<M::Part>, AllocError>
    requires offered { IsOfferedPlan own.now plan.now }
    requires there { place < length own.now }
    ensures many { IfOk result (λ parts. length parts.items ≡ slice_index (counts_wanted own.now plan.now) place) }
    ensures made { IfOk result (λ parts. AreMadeOf M.makes maker.now own.now plan.now place parts.items) }
{
    let mut parts = Vec::new(alloc);
    for process in 0..plan.processes().len() {
        if own_kind(plan, process as u32, own) == Some(place) {
            parts.push(part_of_process(alloc, plan, process, own, place, maker)?)?;
        }
    }
    Ok(parts)
}

// The part of a process of the kind at this place.
fn part_of_process<M: Maker>(
    alloc: Global,
    plan: &Plan,
    process: usize,
    own: &[KindSpec],
    place: usize,
    maker: &M,
) -> Result<M::Part, AllocError>
    requires offered { IsOfferedPlan own.now plan.now }
    requires of_kind { IsOwnOf own.now plan.now process place }
    ensures { IfOk result (λ part. IsMadeFor M.makes maker.now own.now plan.now process part) }
{
    let asked = Asked::new(&own[place], plan.processes()[process].options.as_slice());
    maker.make(alloc, &asked)
}
