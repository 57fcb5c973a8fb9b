//! The plan that a whole draft is.
ghost use Rattle.std.specs.Prelude.{◌≡◌, ◌≤◌, ◌<◌, ◌+◌, ◌*◌, length, map, take, IfOk, Some, slice_get, ℕ};
ghost use Rattle.std.specs.List.{sum_by};
ghost use Rattle.flow_net.specs.Drafts.{is_side, is_stream_at};
ghost use Rattle.flow_net.specs.Finishes.{elements_in, count_of, counted, side_at, number_of, sender_of, connection_of};
ghost use Rattle.flow_net.specs.Calls.{process_at};
ghost use Rattle.flow_net.specs.Sound.{IsPlaced, into_of, sender_at};

use crate::check::size_of;
use crate::counted::Counted;
use crate::draft::{DraftPort, End, Link};
use crate::find::{is_side, is_stream_at};
use crate::give::process_at;
use flow_items::Items;
use flow_limits::{DEFAULT_CAPACITY, ELEMENT_LIMIT};
use flow_plan::{Connection, PortClass, Sender};
use std::alloc::{AllocError, Global};

/// The number of elements of a port.
pub fn elements_in(port: &DraftPort) -> u32
    requires { length port.now.elements ≤ ELEMENT_LIMIT }
    ensures elements { result ≡ elements_in port.now }
    ensures few { result ≤ ELEMENT_LIMIT }
{
    if port.spec.array {
        size_of(port.elements.as_slice()) as u32
    } else {
        1
    }
}

fn count_of(port: &DraftPort) -> u32
    requires { length port.now.elements ≤ ELEMENT_LIMIT }
    ensures count { result ≡ count_of port.now }
    ensures few { result ≤ ELEMENT_LIMIT }
{
    match port.spec.class {
        PortClass::Stream => elements_in(port),
        _ => 0,
    }
}

/// The numbers of elements of all ports.
pub fn counts(alloc: Global, ports: &[DraftPort]) -> Result<Vec<u32>, AllocError>
    requires { (g : ℕ) (port : DraftPort) → slice_get ports.now g ≡ Some port → length port.elements ≤ ELEMENT_LIMIT }
    ensures { IfOk result (λ v. v.items ≡ map count_of ports.now) }
{
    let mut counts = Vec::new(alloc);
    for port in ports {
        counts.push(count_of(port))?;
    }
    Ok(counts)
}

// The numbered elements of a port, if it is on this side of this process.
fn counted_on(port: &DraftPort, count: u32, process: u32, input: bool) -> u32
    requires { count ≡ count_of port.now }
    ensures counted { result ≡ counted process input port.now }
    ensures few { result ≤ count }
{
    if is_side(port, process, input) {
        count
    } else {
        0
    }
}

/// The elements that the first ports have on one side of a process.
pub fn total(draft: Counted<'_>, place: usize, process: u32, input: bool) -> u32
    requires within { place ≤ length draft.ports.now }
    ensures total { result ≡ sum_by (counted process input) (take place draft.entry.ports.now) }
    ensures fits { result ≤ ELEMENT_LIMIT * place }
{
    let mut sum = 0u32;
    for g in 0..place {
        sum += counted_on(&draft.ports[g], draft.counts[g], process, input);
    }
    sum
}

fn side_at(ports: &[DraftPort], end: End) -> bool
    ensures { result ≡ side_at ports.now end }
{
    match ports.get(end.port as usize) {
        None => false,
        Some(port) => port.input,
    }
}

/// The number of an element.
pub fn number(draft: Counted<'_>, end: End) -> u32
    requires there { end.port < length draft.ports.now }
    requires element { end.element ≤ ELEMENT_LIMIT }
    ensures { result ≡ number_of draft.entry.ports.now end }
{
    let process = process_at(draft.ports, end);
    let input = side_at(draft.ports, end);
    total(draft, end.port as usize, process, input) + end.element
}

fn sender(draft: Counted<'_>, end: End) -> Sender
    requires there { end.port < length draft.ports.now }
    requires element { end.element ≤ ELEMENT_LIMIT }
    ensures { result ≡ sender_of draft.entry.ports.now end }
{
    Sender {
        process: process_at(draft.ports, end),
        output: number(draft, end),
    }
}

fn senders(alloc: Global, draft: Counted<'_>, ends: &[End]) -> Result<Items<Sender>, AllocError>
    requires there { (k : ℕ) (end : End) → slice_get ends.now k ≡ Some end → IsPlaced draft.ports.now end }
    ensures { IfOk result (λ senders. senders ≡ map (sender_of draft.entry.ports.now) ends.now) }
{
    let mut senders = Vec::new(alloc);
    for end in ends {
        senders.push(sender(draft, *end))?;
    }
    Ok(Items::of(senders))
}

fn connection(alloc: Global, draft: Counted<'_>, link: &Link) -> Result<Connection, AllocError>
    requires into { IsPlaced draft.ports.now link.now.into }
    requires senders { (k : ℕ) (end : End) → slice_get link.now.senders k ≡ Some end → IsPlaced draft.ports.now end }
    ensures { IfOk result (λ connection. connection ≡ connection_of draft.entry.ports.now link.now) }
{
    let senders = senders(alloc, draft, link.senders.as_slice())?;
    Ok(Connection {
        receiver: process_at(draft.ports, link.into),
        input: number(draft, link.into),
        capacity: link.capacity.unwrap_or(DEFAULT_CAPACITY),
        senders,
    })
}

/// The connections of a plan.
pub fn connections(
    alloc: Global,
    draft: Counted<'_>,
    links: &[Link],
) -> Result<Vec<Connection>, AllocError>
    requires into { (c : ℕ) (end : End) → into_of links.now c ≡ Some end → IsPlaced draft.ports.now end }
    requires senders { (c k : ℕ) (end : End) → sender_at links.now c k ≡ Some end → IsPlaced draft.ports.now end }
    ensures { IfOk result (λ v. v.items ≡ map (connection_of draft.entry.ports.now) links.now) }
{
    let mut connections = Vec::new(alloc);
    for link in links {
        connections.push(connection(alloc, draft, link)?)?;
    }
    Ok(connections)
}
