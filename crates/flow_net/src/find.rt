//! Looking up what a network names.
ghost use Rattle.std.specs.Prelude.{◌≡◌, ◌<◌, ◌≤◌, ◌^◌, ◌&&◌, length, IfOk, position};
ghost use Rattle.std.specs.Str.{bytes_eq};
ghost use Rattle.std.specs.Option.{option_copied};
ghost use Rattle.flow_net.specs.Drafts.{Answers, binding_at, process_named, port_named, element_named, is_side, same, is_stream_at};
ghost use Rattle.flow_net.specs.Calls.{kind_named, process_of_name, end_at, end_named, end_of_port, ends_of, link_into};

use crate::draft::{Binding, DraftPort, DraftProcess, End};
use crate::fault::{PlanFault, PlanStop};
use flow_items::Text;
use flow_limits::{ELEMENT_LIMIT, PROCESS_LIMIT};
use flow_plan::{KindSpec, PortClass, PortRef};
use std::alloc::{AllocError, Global};

/// The kind of a name.
pub fn kind_named<'a>(kinds: &'a [KindSpec], name: &[u8]) -> Option<&'a KindSpec>
    ensures { option_copied result ≡ kind_named kinds.now name.now }
{
    kinds.iter().find(|kind| kind.name.as_slice() == name)
}

/// The place of a process's name.
pub fn process_named(processes: &[DraftProcess], name: &[u8]) -> Option<usize>
    ensures { result ≡ process_named processes.now name.now }
{
    processes
        .iter()
        .position(|begun| begun.name.as_slice() == name)
}

/// Whether a port is on this side of this process.
pub fn is_side(port: &DraftPort, process: u32, input: bool) -> bool
    ensures { result ≡ is_side process input port.now }
{
    port.process == process && port.input == input
}

fn port_named(ports: &[DraftPort], process: u32, input: bool, name: &[u8]) -> Option<usize>
    ensures { result ≡ port_named ports.now process input name.now }
{
    ports.iter().position(|port| is_side(port, process, input) && port.spec.name.as_slice() == name)
}

fn element_named(array: bool, element: Option<u32>) -> Option<u32>
    ensures { result ≡ element_named array element }
{
    match element {
        None => Some(0),
        Some(e) => {
            if array && (e as usize) < ELEMENT_LIMIT {
                Some(e)
            } else {
                None
            }
        }
    }
}

fn end_named(ports: &[DraftPort], process: u32, input: bool, port: &PortRef) -> Option<End>
    requires { length ports.now < 2 ^ 32 }
    ensures { result ≡ end_named ports.now process input port.now }
{
    match port_named(ports, process, input, port.name.as_slice()) {
        None => None,
        Some(place) => match element_named(ports[place].spec.array, port.element) {
            None => None,
            Some(element) => Some(End {
                port: place as u32,
                element,
            }),
        },
    }
}

/// What an element is bound to.
pub fn binding_at(ports: &[DraftPort], end: End) -> Option<Binding>
    ensures { result ≡ binding_at ports.now end }
{
    match ports.get(end.port as usize) {
        None => None,
        Some(port) => port.elements.as_slice().get(end.element as usize).copied(),
    }
}

/// The connection into an element.
pub fn link_into(ports: &[DraftPort], end: End) -> Option<u32>
    ensures { result ≡ link_into ports.now end }
{
    match binding_at(ports, end) {
        Some(Binding::Receives(link)) => Some(link),
        _ => None,
    }
}

/// Whether an element's port carries packets.
pub fn is_stream_at(ports: &[DraftPort], end: End) -> bool
    ensures { result ≡ is_stream_at ports.now end }
{
    match ports.get(end.port as usize) {
        None => false,
        Some(port) => matches!(port.spec.class, PortClass::Stream),
    }
}

/// The process of a name, or that there is none.
pub fn found_process(
    alloc: Global,
    processes: &[DraftProcess],
    name: &[u8],
) -> Result<u32, PlanStop>
    requires { length processes.now ≤ PROCESS_LIMIT }
    ensures { Answers (process_of_name processes.now name.now) result }
{
    match process_named(processes, name) {
        Some(process) => Ok(process as u32),
        None => {
            let name = Text::from_slice(alloc, name)?;
            Err(PlanStop::Fault(PlanFault::UnknownProcess(name)))
        }
    }
}

/// The element that a network names, or that there is none.
pub fn found_end(
    alloc: Global,
    ports: &[DraftPort],
    number: u32,
    input: bool,
    process: &[u8],
    port: &PortRef,
) -> Result<End, PlanStop>
    requires { length ports.now < 2 ^ 32 }
    ensures { Answers (end_of_port ports.now number input process.now port.now) result }
{
    match end_named(ports, number, input, port) {
        Some(end) => Ok(end),
        None => {
            let process = Text::from_slice(alloc, process)?;
            let port = port.copy(alloc)?;
            Err(PlanStop::Fault(PlanFault::PortUnknown(process, port)))
        }
    }
}

/// Both ends of a connection.
pub fn ends(
    alloc: Global,
    processes: &[DraftProcess],
    ports: &[DraftPort],
    from: &[u8],
    out: &PortRef,
    to: &[u8],
    into: &PortRef,
) -> Result<(End, End), PlanStop>
    requires few_processes { length processes.now ≤ PROCESS_LIMIT }
    requires few_ports { length ports.now < 2 ^ 32 }
    ensures { Answers (ends_of processes.now ports.now from.now out.now to.now into.now) result }
{
    let sender = found_process(alloc, processes, from)?;
    let receiver = found_process(alloc, processes, to)?;
    let output = found_end(alloc, ports, sender, false, from, out)?;
    let input = found_end(alloc, ports, receiver, true, to, into)?;
    Ok((output, input))
}
