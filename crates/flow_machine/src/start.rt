//! What stands at the ports of a process of a plan.
ghost use Rattle.std.specs.Prelude.{◌≡◌, ◌<◌, ◌^◌, ◌↔◌, length, map, IfOk, IsTrue};
ghost use Rattle.flow_model.specs.Plans.{text_at, connected_or};
ghost use Rattle.flow_machine.specs.Wires.{inputs_from};
ghost use Rattle.flow_machine.specs.Inlets.{input_shown};

use crate::inlet::Inlet;
use flow_items::Text;
use flow_plan::Process;
use std::alloc::{AllocError, Global};

/// As many as a process has inputs or outputs.
pub(crate) fn places(ports: u32) -> usize
    ensures is { result ≡ ports }
    ensures small { result < 2 ^ 32 }
{
    ports as usize
}

/// So many ports have numbers of 32 bits.
pub(crate) fn fits(ports: usize) -> bool
    ensures { IsTrue result ↔ (ports < 2 ^ 32) }
{
    ports < 4_294_967_296
}

/// The initial text at an input, and no text where there is none.
fn initial_text(alloc: Global, initials: &[(u32, Text)], input: u32) -> Result<Vec<u8>, AllocError>
    ensures { IfOk result (λ text. text.items ≡ text_at initials.now input) }
{
    for initial in initials {
        if initial.0 == input {
            return Vec::from_slice(alloc, initial.1.as_slice());
        }
    }
    Ok(Vec::new(alloc))
}

/// What stands at an input: its connection, and else its initial text.
fn inlet_at(
    alloc: Global,
    process: &Process,
    input: u32,
    connection: Option<u32>,
) -> Result<Inlet, AllocError>
    ensures { IfOk result (λ inlet. input_shown inlet ≡ connected_or (text_at process.now.initials input) connection) }
{
    match connection {
        Some(connection) => Ok(Inlet::Connection(connection)),
        None => {
            let text = initial_text(alloc, process.initials.as_slice(), input)?;
            Ok(Inlet::Text(text))
        }
    }
}

/// What stands at the inputs of a process that receive from these connections.
pub(crate) fn inlets_of(
    alloc: Global,
    process: &Process,
    receiving: &[Option<u32>],
) -> Result<Vec<Inlet>, AllocError>
    requires { length receiving.now < 2 ^ 32 }
    ensures { IfOk result (λ inlets. map input_shown inlets.items ≡ inputs_from process.now.initials 0 receiving.now) }
{
    let mut inlets = Vec::new(alloc);
    for (input, connection) in receiving.iter().enumerate() {
        inlets.push(inlet_at(alloc, process, input as u32, *connection)?)?;
    }
    Ok(inlets)
}
