//! The parts that the processes of a run take, each of a kind of the caller's own.
ghost use Rattle.std.specs.Prelude.{◌≡◌, ◌<◌, ℕ, IfOk, IfSome, length};
ghost use Rattle.flow_offer.specs.Shares.{FindsPart};
ghost use Rattle.flow_offer.specs.Processes.{IsOfferedPlan};
ghost use Rattle.flow_load.specs.Components.{AreInOrder, HandsOut, TakesFirst, TakesNext, TakesParts};
ghost use Rattle.flow_load.specs.Offers.{counts_left, counts_of, parts_in, parts_left};

use crate::stop::Stop;
use flow_offer::{no_part, own_kind};
use flow_own::Part;
use flow_plan::{KindSpec, Plan};
use std::alloc::{AllocError, Global};
use std::vec::IntoIter;

/// The part of each process of a kind of the caller's own, in the order of the processes; the others have none. Parts that none takes are dropped.
pub(crate) fn parts_for<P: Part>(
    alloc: Global,
    plan: &Plan,
    own: &[KindSpec],
    parts: Vec<Vec<P>>,
) -> Result<Vec<Option<P>>, Stop>
    requires offered { IsOfferedPlan own.now plan.now }
    requires parts { length parts.items ≡ length own.now }
    ensures hands { HandsOut own.now (counts_of parts.items) plan.now result }
    ensures order { IfOk result (λ taken. AreInOrder own.now (parts_in parts.items) plan.now taken.items) }
{
    let counts = counts_of(alloc, &parts)?;
    if let Some(process) = no_part(plan, own, &counts) {
        let name = plan.processes()[process as usize].name.copy(alloc)?;
        return Err(Stop::NoPart(name));
    }
    Ok(shared_out(alloc, plan, own, parts)?)
}

// How many parts there are of each kind.
fn counts_of<P: Part>(alloc: Global, parts: &[Vec<P>]) -> Result<Vec<usize>, AllocError>
    ensures { IfOk result (λ counts. counts.items ≡ counts_of parts.now) }
{
    let mut counts = Vec::new(alloc);
    for kind in parts {
        counts.push(kind.len())?;
    }
    Ok(counts)
}

// The part of each process: the next one of its kind, and none where the kind isn't the caller's own.
fn shared_out<P: Part>(
    alloc: Global,
    plan: &Plan,
    own: &[KindSpec],
    parts: Vec<Vec<P>>,
) -> Result<Vec<Option<P>>, AllocError>
    requires offered { IsOfferedPlan own.now plan.now }
    requires parts { length parts.items ≡ length own.now }
    requires enough { (p : ℕ) → FindsPart own.now (counts_of parts.items) plan.now p }
    ensures taken { IfOk result (λ shared. TakesParts own.now plan.now shared.items) }
    ensures order { IfOk result (λ shared. AreInOrder own.now (parts_in parts.items) plan.now shared.items) }
{
    let mut queues = queues_of(alloc, parts)?;
    let mut shared = Vec::new(alloc);
    for process in 0..plan.processes().len() {
        let place = own_kind(plan, process as u32, own);
        shared.push(next_part(&mut queues, place))?;
    }
    Ok(shared)
}

// The parts of each kind, to be taken one after another.
fn queues_of<P: Part>(
    alloc: Global,
    parts: Vec<Vec<P>>,
) -> Result<Vec<IntoIter<P, Global>>, AllocError>
    ensures counts { IfOk result (λ queues. counts_left queues.items ≡ counts_of parts.items) }
    ensures parts { IfOk result (λ queues. parts_left queues.items ≡ parts_in parts.items) }
{
    let mut queues = Vec::new(alloc);
    for kind in parts {
        queues.push(kind.into_iter())?;
    }
    Ok(queues)
}

// The next part of the kind at this place, if there is one; without a place none is taken.
fn next_part<P: Part>(queues: &mut [IntoIter<P, Global>], place: Option<usize>) -> Option<P>
    requires { IfSome place (λ place. place < length queues.now) }
    ensures counts { TakesNext (counts_left queues.old) (counts_left queues.new) place result }
    ensures first { TakesFirst (parts_left queues.old) (parts_left queues.new) place result }
{
    match place {
        Some(place) => queues[place].next(),
        None => None,
    }
}
