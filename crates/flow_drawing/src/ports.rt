//! How ports stand in a drawing.
ghost use Rattle.std.specs.Prelude.{◌≡◌, IfOk};
ghost use Rattle.flow_drawing.specs.Ports.{has_input, has_output, input_text, is_automatic_input, is_automatic_output, output_text};

use flow_items::Text;
use flow_plan::{Plan, Process};
use std::alloc::{AllocError, Global};

fn has_input(processes: &[Process], process: u32, input: u32) -> bool
    ensures { result ≡ has_input processes.now process input }
{
    match processes.get(process as usize) {
        Some(entry) => input <= entry.inputs,
        None => false,
    }
}

fn has_output(processes: &[Process], process: u32, output: u32) -> bool
    ensures { result ≡ has_output processes.now process output }
{
    match processes.get(process as usize) {
        Some(entry) => output <= entry.outputs,
        None => false,
    }
}

/// An input as it is spelled, and no bytes where the process doesn't have it.
pub fn input_text(alloc: Global, plan: &Plan, process: u32, input: u32) -> Result<Text, AllocError>
    ensures { IfOk result (λ text. text ≡ input_text plan.now process input) }
{
    let processes = plan.processes();
    if has_input(processes, process, input) {
        let name = plan.input_name(alloc, process, input)?;
        Ok(Text::of(name))
    } else {
        Ok(Text::new(alloc))
    }
}

/// An output as it is spelled, likewise.
pub fn output_text(
    alloc: Global,
    plan: &Plan,
    process: u32,
    output: u32,
) -> Result<Text, AllocError>
    ensures { IfOk result (λ text. text ≡ output_text plan.now process output) }
{
    let processes = plan.processes();
    if has_output(processes, process, output) {
        let name = plan.output_name(alloc, process, output)?;
        Ok(Text::of(name))
    } else {
        Ok(Text::new(alloc))
    }
}

/// Whether an input is the automatic one.
pub fn is_automatic_input(plan: &Plan, process: u32, input: u32) -> bool
    ensures { result ≡ is_automatic_input plan.now process input }
{
    match plan.processes().get(process as usize) {
        Some(entry) => input == entry.inputs,
        None => false,
    }
}

/// Whether an output is the automatic one.
pub fn is_automatic_output(plan: &Plan, process: u32, output: u32) -> bool
    ensures { result ≡ is_automatic_output plan.now process output }
{
    match plan.processes().get(process as usize) {
        Some(entry) => output == entry.outputs,
        None => false,
    }
}
