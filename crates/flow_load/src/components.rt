//! The components of a plan's processes: standard ones, and those of the caller's own, live or as players of tapes.
ghost use Rattle.std.specs.Prelude.{◌≡◌, ◌<◌, IfOk, length};
ghost use Rattle.std.specs.Option.{option_copied};
ghost use Rattle.flow_offer.specs.Processes.{IsOfferedPlan, own_processes};
ghost use Rattle.flow_load.specs.Components.{AreComponents, AreLive, CanTake, HoldParts, IsPartAt, IsPlayerAt, TakesPart, TakesParts, TakesTape, contents_of};

use flow_catalogue::{Std, make};
use flow_offer::{each_process_is_standard_or_own, own_kind, shape_at, used_outputs};
use flow_own::{Mix, Mixed, Own, Part, Tape};
use flow_plan::{KindSpec, Plan};
use flow_played::Played;
use std::alloc::{AllocError, Global};

/// The components of the plan's processes: each reader on what it was given, and each of the caller's own the part at its place. The kinds are those among which
/// the plan was made.
pub(crate) fn live_components<P: Part>(
    alloc: Global,
    plan: &Plan,
    own: &[KindSpec],
    given: Vec<Vec<u8>>,
    parts: Vec<Option<P>>,
) -> Result<Vec<Mixed<Std, P>>, AllocError>
    requires offered { IsOfferedPlan own.now plan.now }
    requires given { length given.items ≡ length plan.now.processes }
    requires parts { TakesParts own.now plan.now parts.items }
    ensures live { IfOk result (λ components. AreLive own.now plan.now (contents_of given.items) components.items) }
    ensures held { IfOk result (λ components. HoldParts P.seen parts.items components.items) }
{
    let _ = own;
    each_process_is_standard_or_own();
    let mut components = Vec::new(alloc);
    let mut process = 0;
    for (bytes, part) in given.into_iter().zip(parts) {
        components.push(live_component(alloc, plan, process, bytes, part)?)?;
        process += 1;
    }
    Ok(components)
}

// The component of one process.
fn live_component<P: Part>(
    alloc: Global,
    plan: &Plan,
    process: u32,
    bytes: Vec<u8>,
    part: Option<P>,
) -> Result<Mixed<Std, P>, AllocError>
    requires { CanTake plan.now process part }
    ensures { IfOk result (λ component. TakesPart P.seen plan.now process bytes.items part component) }
{
    match part {
        Some(part) => live_part(alloc, plan, process, part),
        None => {
            let standard = make(alloc, plan, process, bytes)?;
            Ok(Mixed::of(Mix::Other(standard)))
        }
    }
}

// The live part of a process, as its component.
fn live_part<P: Part>(
    alloc: Global,
    plan: &Plan,
    process: u32,
    part: P,
) -> Result<Mixed<Std, P>, AllocError>
    requires { process < length plan.now.processes }
    ensures { IfOk result (λ component. IsPartAt plan.now process (P.seen part) component) }
{
    let used = used_outputs(alloc, plan, process)?;
    let live = Own::live(alloc, part, shape_at(plan, process), used);
    Ok(Mixed::of(Mix::Own(live)))
}

/// The components of the plan's processes: each reader on what it was given, and each of the caller's own the player of its tape; the tapes are in the order of
/// these processes.
pub fn played_components(
    alloc: Global,
    plan: &Plan,
    own: &[KindSpec],
    given: Vec<Vec<u8>>,
    tapes: &[Tape],
) -> Result<Vec<Played<Std>>, AllocError>
    requires offered { IsOfferedPlan own.now plan.now }
    requires given { length given.items ≡ length plan.now.processes }
    requires tapes { length tapes.now ≡ length (own_processes own.now plan.now) }
    ensures { IfOk result (λ components. AreComponents own.now plan.now (contents_of given.items) tapes.now components.items) }
{
    let mut components = Vec::new(alloc);
    let mut left = tapes.iter();
    let mut process = 0;
    for bytes in given {
        let tape = match own_kind(plan, process, own) {
            Some(_) => left.next(),
            None => None,
        };
        components.push(played_component(alloc, plan, process, bytes, tape)?)?;
        process += 1;
    }
    Ok(components)
}

// The component of one process.
fn played_component(
    alloc: Global,
    plan: &Plan,
    process: u32,
    bytes: Vec<u8>,
    tape: Option<&Tape>,
) -> Result<Played<Std>, AllocError>
    requires { CanTake plan.now process tape }
    ensures { IfOk result (λ component. TakesTape plan.now process bytes.items (option_copied tape.entry) component) }
{
    match tape {
        Some(tape) => player(alloc, plan, process, tape),
        None => {
            let standard = make(alloc, plan, process, bytes)?;
            Ok(Played::other(standard))
        }
    }
}

// The player of a tape, as the component of a process.
fn player(alloc: Global, plan: &Plan, process: u32, tape: &Tape) -> Result<Played<Std>, AllocError>
    requires { process < length plan.now.processes }
    ensures { IfOk result (λ component. IsPlayerAt plan.now process tape.now component) }
{
    let used = used_outputs(alloc, plan, process)?;
    let tape = tape.copy()?;
    Ok(Played::player(tape, shape_at(plan, process), used))
}
