//! Giving an input a text.
ghost use Rattle.std.specs.Prelude.{◌≡◌, ◌<◌, ◌≤◌, ◌^◌, length, IsSome, IfOk, OnOk, OnErr, slice_get};
ghost use Rattle.flow_net.specs.Drafts.{Answers, binding_at, bound, updated};
ghost use Rattle.flow_net.specs.Calls.{input_for, process_at, next_text, takes_text, with_text};

use crate::draft::{Binding, DraftPort, DraftProcess, End};
use crate::fault::{PlanFault, PlanStop};
use crate::{find, join};
use flow_items::Text;
use flow_limits::PROCESS_LIMIT;
use flow_plan::{PortClass, PortRef};
use std::alloc::{AllocError, Global};

// Whether an input takes a text: the automatic one takes none.
fn takes_text(ports: &[DraftPort], end: End) -> bool
    ensures { result ≡ takes_text ports.now end }
{
    match ports.get(end.port as usize) {
        None => false,
        Some(port) => match port.spec.class {
            PortClass::Stream => port.spec.needed,
            _ => true,
        },
    }
}

/// The input that a text is for, or the first thing that is against it.
pub fn input_for(
    alloc: Global,
    processes: &[DraftProcess],
    ports: &[DraftPort],
    to: &[u8],
    into: &PortRef,
) -> Result<End, PlanStop>
    requires few_processes { length processes.now ≤ PROCESS_LIMIT }
    requires few_ports { length ports.now < 2 ^ 32 }
    ensures { Answers (input_for processes.now ports.now to.now into.now) result }
{
    let receiver = find::found_process(alloc, processes, to)?;
    let input = find::found_end(alloc, ports, receiver, true, to, into)?;
    if !takes_text(ports, input) {
        let process = Text::from_slice(alloc, to)?;
        let port = into.copy(alloc)?;
        return Err(PlanStop::Fault(PlanFault::PortUnknown(process, port)));
    }
    if join::is_taken(find::binding_at(ports, input)) {
        return Err(PlanStop::Fault(join::taken_fault(alloc, to, into)?));
    }
    Ok(input)
}

/// That a text isn't of its port's class.
pub fn option_fault(alloc: Global, process: &[u8], port: &PortRef) -> Result<PlanFault, AllocError>
    ensures { IfOk result (λ fault. fault ≡ PlanFault.BadOption process.now port.now) }
{
    let process = Text::from_slice(alloc, process)?;
    let port = port.copy(alloc)?;
    Ok(PlanFault::BadOption(process, port))
}

/// The number of an element's process.
pub fn process_at(ports: &[DraftPort], end: End) -> u32
    ensures { result ≡ process_at ports.now end }
{
    match ports.get(end.port as usize) {
        None => 0,
        Some(port) => port.process,
    }
}

/// A text at an input, as the last of its process's.
pub fn give(
    processes: &mut Vec<DraftProcess>,
    ports: &mut Vec<DraftPort>,
    process: u32,
    input: End,
    text: Text,
) -> Result<(), AllocError>
    requires there { process < length processes.old.items }
    requires input { IsSome (binding_at ports.old.items input) }
    ensures processes { OnOk result (processes.new.items ≡ updated (with_text input text) processes.old.items process) }
    ensures ports { OnOk result (ports.new.items ≡ bound ports.old.items input (Binding.Given (next_text (slice_get processes.old.items process)))) }
    ensures same_processes { OnErr result (processes.new.items ≡ processes.old.items) }
    ensures same_ports { OnErr result (ports.new.items ≡ ports.old.items) }
{
    let begun = &mut processes[process as usize];
    let place = begun.texts.len() as u64;
    begun.texts.push((input, text))?;
    join::bind(ports, input, Binding::Given(place));
    Ok(())
}
