//! How a report names the processes, ports and connections of a plan.
ghost use Rattle.std.specs.Prelude.{◌≡◌, ◌++◌, codes, IfOk};
ghost use Rattle.flow_report.specs.Names.{has_input, has_output, input_text, output_text, name_text, kind_text, connection_text};

use flow_component::Port;
use flow_items::Text;
use flow_plan::Plan;
use std::alloc::{AllocError, Global};

fn has_input(plan: &Plan, process: u32, input: u32) -> bool
    ensures { result ≡ has_input plan.now process input }
{
    match plan.processes().get(process as usize) {
        Some(entry) => input <= entry.inputs,
        None => false,
    }
}

fn has_output(plan: &Plan, process: u32, output: u32) -> bool
    ensures { result ≡ has_output plan.now process output }
{
    match plan.processes().get(process as usize) {
        Some(entry) => output <= entry.outputs,
        None => false,
    }
}

/// An input as it is spelled. An input that the process doesn't have is spelled by no bytes; a net of this
/// plan names none.
pub fn input_text(alloc: Global, plan: &Plan, process: u32, port: Port) -> Result<Text, AllocError>
    ensures { IfOk result (λ text. text ≡ input_text plan.now process port.0) }
{
    if has_input(plan, process, port.0) {
        let name = plan.input_name(alloc, process, port.0)?;
        Ok(Text::of(name))
    } else {
        Ok(Text::new(alloc))
    }
}

/// An output as it is spelled, likewise.
pub fn output_text(alloc: Global, plan: &Plan, process: u32, port: Port) -> Result<Text, AllocError>
    ensures { IfOk result (λ text. text ≡ output_text plan.now process port.0) }
{
    if has_output(plan, process, port.0) {
        let name = plan.output_name(alloc, process, port.0)?;
        Ok(Text::of(name))
    } else {
        Ok(Text::new(alloc))
    }
}

/// The name of a process, likewise.
pub fn name_text(alloc: Global, plan: &Plan, process: u32) -> Result<Text, AllocError>
    ensures { IfOk result (λ text. text ≡ name_text plan.now process) }
{
    match plan.processes().get(process as usize) {
        Some(entry) => entry.name.copy(alloc),
        None => Ok(Text::new(alloc)),
    }
}

/// The kind of a process, likewise.
pub fn kind_text(alloc: Global, plan: &Plan, process: u32) -> Result<Text, AllocError>
    ensures { IfOk result (λ text. text ≡ kind_text plan.now process) }
{
    match plan.processes().get(process as usize) {
        Some(entry) => entry.kind.copy(alloc),
        None => Ok(Text::new(alloc)),
    }
}

/// The name of a connection: its receiver's, a point, and the input there.
pub fn connection_text(alloc: Global, plan: &Plan, connection: u32) -> Result<Text, AllocError>
    ensures { IfOk result (λ text. text ≡ connection_text plan.now connection) }
{
    match plan.connections().get(connection as usize) {
        Some(entry) => receiver_text(alloc, plan, entry.receiver, Port(entry.input)),
        None => Ok(Text::new(alloc)),
    }
}

fn receiver_text(alloc: Global, plan: &Plan, process: u32, port: Port) -> Result<Text, AllocError>
    ensures { IfOk result (λ text. text ≡ name_text plan.now process ++ codes "." ++ input_text plan.now process port.0) }
{
    let name = name_text(alloc, plan, process)?;
    let input = input_text(alloc, plan, process, port)?;
    let mut text = name.into_vec();
    text.extend_from_slice(b".")?;
    text.extend_from_slice(input.as_slice())?;
    Ok(Text::of(text))
}
