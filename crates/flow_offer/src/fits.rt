//! What a plan says of a component of the caller's own: its shape and the outputs that it uses.

ghost use Rattle.std.specs.Prelude.{◌≡◌, ◌<◌, length, IfOk, IfSome, slice_get};
ghost use Rattle.flow_offer.specs.Fits.{shape_of, used_outputs, FitsMixed, FitsPlayed};

use flow_catalogue::is_connected;
use flow_component::{Component, Shape};
use flow_items::Items;
use flow_plan::Plan;
use std::alloc::{AllocError, Global};

/// With the shape that the plan gives a process and the outputs that it connects, the player of any tape fits the
/// process, and so does a live part with an empty tape; every other component fits among these where it fits by
/// itself.
pub fn own_components_fit<K: Component>()
    ensures mixed { FitsMixed K.rules }
    ensures played { FitsPlayed K.rules }
{}

/// How many inputs and outputs the component of a process has. Takes no memory.
pub fn shape_at(plan: &Plan, process: u32) -> Shape
    requires { process < length plan.now.processes }
    ensures { IfSome (slice_get plan.now.processes process) (λ p. result ≡ shape_of p) }
{
    let process = &plan.processes()[process as usize];
    Shape {
        inputs: process.inputs,
        outputs: process.outputs,
    }
}

/// The numbers of a process's outputs that send to a connection. They rise.
pub fn used_outputs(alloc: Global, plan: &Plan, process: u32) -> Result<Items<u32>, AllocError>
    requires { process < length plan.now.processes }
    ensures { IfOk result (λ used. IfSome (slice_get plan.now.processes process) (λ p. used ≡ used_outputs plan.now process p.outputs)) }
{
    let outputs = plan.processes()[process as usize].outputs;
    let mut used = Vec::new(alloc);
    for output in 0..outputs {
        if is_connected(plan, process, output) {
            used.push(output)?;
        }
    }
    Ok(Items::of(used))
}
