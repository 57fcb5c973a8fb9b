//! What is wrong with a network that is to be a plan.
ghost use Rattle.std.specs.Prelude.{◌≡◌, ◌≤◌, ◌*◌, length, IfOk, IfErr, position, take, Some, slice_get, ℕ};
ghost use Rattle.std.specs.List.{sum_by};
ghost use Rattle.flow_net.specs.Drafts.{Answers, is_free};
ghost use Rattle.flow_net.specs.Finishes.{size_of, gap_fault, port_fault, first_fault, capacity_of, sum_fault, name_of};

use crate::draft::{Binding, DraftPort, DraftProcess, Link};
use crate::fault::{Many, PlanFault, PlanStop};
use flow_items::Text;
use flow_limits::{
    CAPACITY_LIMIT, CAPACITY_SUM_LIMIT, CONNECTION_LIMIT, DEFAULT_CAPACITY, ELEMENT_LIMIT,
};
use std::alloc::Global;

fn is_free(binding: &Binding) -> bool
    ensures { result ≡ is_free binding.now }
{
    matches!(binding, Binding::Free)
}

/// One more than the place of the last element that is bound.
pub fn size_of(elements: &[Binding]) -> usize
    ensures size { result ≡ size_of elements.now }
    ensures within { result ≤ length elements.now }
{
    let mut size = 0;
    for (place, binding) in elements.iter().enumerate() {
        if !is_free(binding) {
            size = place + 1;
        }
    }
    size
}

fn first_free(elements: &[Binding]) -> Option<usize>
    ensures { result ≡ position is_free elements.now }
{
    elements.iter().position(|binding| is_free(binding))
}

fn missing(alloc: Global, process: &[u8], port: &DraftPort) -> Result<PlanFault, PlanStop>
    ensures ok { IfOk result (λ fault. fault ≡ PlanFault.PortMissing process.now port.now.spec.name) }
    ensures memory { IfErr result (λ stop. stop ≡ PlanStop.NoMemory) }
{
    let process = Text::from_slice(alloc, process)?;
    let name = port.spec.name.copy(alloc)?;
    Ok(PlanFault::PortMissing(process, name))
}

fn gap(alloc: Global, process: &[u8], port: &DraftPort, e: u32) -> Result<PlanFault, PlanStop>
    ensures ok { IfOk result (λ fault. fault ≡ PlanFault.ElementGap process.now port.now.spec.name e) }
    ensures memory { IfErr result (λ stop. stop ≡ PlanStop.NoMemory) }
{
    let process = Text::from_slice(alloc, process)?;
    let name = port.spec.name.copy(alloc)?;
    Ok(PlanFault::ElementGap(process, name, e))
}

fn check_port(alloc: Global, process: &[u8], port: &DraftPort) -> Result<(), PlanStop>
    requires { length port.now.elements ≤ ELEMENT_LIMIT }
    ensures { Answers (port_fault process.now port.now) result }
{
    let elements = port.elements.as_slice();
    let size = size_of(elements);
    if size == 0 {
        if port.spec.needed {
            let fault = missing(alloc, process, port)?;
            return Err(PlanStop::Fault(fault));
        }
        return Ok(());
    }
    match first_free(&elements[..size]) {
        None => Ok(()),
        Some(e) => {
            let fault = gap(alloc, process, port, e as u32)?;
            Err(PlanStop::Fault(fault))
        }
    }
}

fn name_of(processes: &[DraftProcess], process: u32) -> &[u8]
    ensures { result.now ≡ name_of processes.now process }
{
    match processes.get(process as usize) {
        None => b"",
        Some(begun) => begun.name.as_slice(),
    }
}

/// That each port is bound as it has to be, or the first that isn't.
pub fn check_ports(
    alloc: Global,
    processes: &[DraftProcess],
    ports: &[DraftPort],
) -> Result<(), PlanStop>
    requires { (g : ℕ) (port : DraftPort) → slice_get ports.now g ≡ Some port → length port.elements ≤ ELEMENT_LIMIT }
    ensures { Answers (first_fault processes.now ports.now) result }
{
    for port in ports {
        check_port(alloc, name_of(processes, port.process), port)?;
    }
    Ok(())
}

fn capacity_sum(links: &[Link]) -> u32
    requires few { length links.now ≤ CONNECTION_LIMIT }
    requires small { (c : ℕ) (link : Link) → slice_get links.now c ≡ Some link → capacity_of link ≤ CAPACITY_LIMIT }
    ensures { result ≡ sum_by capacity_of links.now }
{
    let mut sum = 0u32;
    for link in links {
        sum += link.capacity.unwrap_or(DEFAULT_CAPACITY);
    }
    sum
}

/// That the capacities don't come to too much.
pub fn check_sum(links: &[Link]) -> Result<(), PlanStop>
    requires few { length links.now ≤ CONNECTION_LIMIT }
    requires small { (c : ℕ) (link : Link) → slice_get links.now c ≡ Some link → capacity_of link ≤ CAPACITY_LIMIT }
    ensures { Answers (sum_fault links.now) result }
{
    if capacity_sum(links) > CAPACITY_SUM_LIMIT {
        return Err(PlanStop::Fault(PlanFault::TooMany(Many::CapacitySum)));
    }
    Ok(())
}
