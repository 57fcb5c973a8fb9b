//! A new process with its ports.
ghost use Rattle.std.specs.Prelude.{◌≡◌, ◌∷◌, ◌++◌, [], ◌<◌, ◌≤◌, ◌^◌, length, IfOk, OnOk, OnErr, IfErr, Ok, Err, true, false, replicate};
ghost use Rattle.flow_net.specs.Drafts.{Answers};
ghost use Rattle.flow_net.specs.Calls.{fresh_port, fresh_ports, kind_for, begun_as, room_of};
ghost use Rattle.flow_net.specs.Kinds.{automatic, all_inputs, all_outputs};

use crate::draft::{Binding, DraftPort, DraftProcess};
use crate::fault::{Many, PlanFault, PlanStop};
use crate::find;
use flow_items::{Items, Text};
use flow_limits::{ELEMENT_LIMIT, PORT_LIMIT, PROCESS_LIMIT};
use flow_plan::{KindSpec, PortClass, PortSpec};
use std::alloc::{AllocError, Global};

/// The number of elements that a port has from the start.
fn room_of(array: bool) -> usize
    ensures { result ≡ room_of array }
{
    if array { ELEMENT_LIMIT } else { 1 }
}

fn free_elements(alloc: Global, room: usize) -> Result<Vec<Binding>, AllocError>
    ensures { IfOk result (λ v. v.items ≡ replicate room Binding.Free) }
{
    vec![in alloc; Binding::Free; room]
}

fn fresh_port(
    alloc: Global,
    process: u32,
    input: bool,
    place: u32,
    spec: &PortSpec,
) -> Result<DraftPort, AllocError>
    ensures { IfOk result (λ port. port ≡ fresh_port process input place spec.now) }
{
    let elements = free_elements(alloc, room_of(spec.array))?;
    let name = spec.name.copy(alloc)?;
    let class = if input { spec.class } else { PortClass::Stream };
    Ok(DraftPort {
        process,
        input,
        place,
        spec: PortSpec {
            name,
            class,
            array: spec.array,
            needed: spec.needed,
        },
        elements: Items::of(elements),
    })
}

/// The entry of an automatic port.
fn automatic(alloc: Global, name: &[u8]) -> Result<PortSpec, AllocError>
    ensures { IfOk result (λ spec. spec ≡ automatic name.now) }
{
    Ok(PortSpec {
        name: Text::from_slice(alloc, name)?,
        class: PortClass::Stream,
        array: false,
        needed: false,
    })
}

// The ports of these entries, and the automatic one of this name behind them.
fn add_ports(
    alloc: Global,
    ports: &mut Vec<DraftPort>,
    process: u32,
    input: bool,
    specs: &[PortSpec],
    name: &[u8],
) -> Result<(), AllocError>
    requires { length specs.now ≤ PORT_LIMIT }
    ensures { OnOk result (ports.new.items ≡ ports.old.items ++ fresh_ports process input 0 (specs.now ++ automatic name.now ∷ [])) }
{
    for (place, spec) in specs.iter().enumerate() {
        let port = fresh_port(alloc, process, input, place as u32, spec)?;
        ports.push(port)?;
    }
    let spec = automatic(alloc, name)?;
    let port = fresh_port(alloc, process, input, specs.len() as u32, &spec)?;
    ports.push(port)?;
    Ok(())
}

/// The kind of a new process, or the first thing that is against it.
pub fn kind_for<'a>(
    alloc: Global,
    kinds: &'a [KindSpec],
    processes: &[DraftProcess],
    name: &[u8],
    kind: &[u8],
) -> Result<&'a KindSpec, PlanStop>
    ensures ok { IfOk result (λ spec. kind_for kinds.now processes.now name.now kind.now ≡ Ok spec.now) }
    ensures err { IfErr result (λ stop. Answers (kind_for kinds.now processes.now name.now kind.now) (Err stop)) }
{
    if find::process_named(processes, name).is_some() {
        let name = Text::from_slice(alloc, name)?;
        return Err(PlanStop::Fault(PlanFault::SameName(name)));
    }
    let spec = match find::kind_named(kinds, kind) {
        Some(spec) => spec,
        None => {
            let name = Text::from_slice(alloc, name)?;
            let kind = Text::from_slice(alloc, kind)?;
            return Err(PlanStop::Fault(PlanFault::UnknownKind(name, kind)));
        }
    };
    if processes.len() >= PROCESS_LIMIT {
        return Err(PlanStop::Fault(PlanFault::TooMany(Many::Processes)));
    }
    Ok(spec)
}

/// A new process, with all its ports behind those that there are. Its name moves in.
pub fn begin(
    alloc: Global,
    processes: &mut Vec<DraftProcess>,
    ports: &mut Vec<DraftPort>,
    name: Text,
    kind: &KindSpec,
) -> Result<(), AllocError>
    requires few { length processes.old.items < PROCESS_LIMIT }
    requires few_inputs { length kind.now.inputs ≤ PORT_LIMIT }
    requires few_outputs { length kind.now.outputs ≤ PORT_LIMIT }
    ensures processes { OnOk result (processes.new.items ≡ processes.old.items ++ begun_as (length processes.old.items) name kind.now.name ∷ []) }
    ensures ports { OnOk result (ports.new.items ≡ ports.old.items ++ (fresh_ports (length processes.old.items) true 0 (all_inputs kind.now.inputs) ++ fresh_ports (length processes.old.items) false 0 (all_outputs kind.now.outputs))) }
    ensures same_processes { OnErr result (processes.new.items ≡ processes.old.items) }
    ensures same_ports { OnErr result (ports.new.items ≡ ports.old.items) }
{
    let number = processes.len() as u32;
    let mut added = Vec::new(alloc);
    let inputs = kind.inputs.as_slice();
    add_ports(alloc, &mut added, number, true, inputs, b"*IN")?;
    let outputs = kind.outputs.as_slice();
    add_ports(alloc, &mut added, number, false, outputs, b"*OUT")?;
    let begun = DraftProcess {
        number,
        name,
        kind: kind.name.copy(alloc)?,
        texts: Items::new(alloc),
    };
    let before = ports.len();
    ports.append(&mut added)?;
    match processes.push(begun) {
        Ok(()) => Ok(()),
        Err(_) => {
            ports.truncate(before);
            Err(AllocError)
        }
    }
}
