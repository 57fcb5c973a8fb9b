//! Joining an output to an input.
ghost use Rattle.std.specs.Prelude.{◌≡◌, ◌∷◌, ◌++◌, [], ◌<◌, ◌≤◌, ◌^◌, length, IsSome, IfOk, OnOk, OnErr, Some, None, ℕ, false, slice_get};
ghost use Rattle.flow_net.specs.Drafts.{Answers, binding_at, bound, updated};
ghost use Rattle.flow_net.specs.Calls.{allowed_capacity, same_capacity, capacity_before, is_full, may_join, is_taken, has_text, link_into, first_given, next_sender, with_sender, joined_links, joined_ports};

use crate::draft::{Binding, DraftPort, End, Link};
use crate::fault::{Many, PlanFault, PlanStop};
use crate::find;
use flow_items::{Items, Text};
use flow_limits::{CAPACITY_LIMIT, CONNECTION_LIMIT, SENDER_LIMIT};
use flow_plan::PortRef;
use std::alloc::{AllocError, Global};

fn allowed_capacity(capacity: Option<u32>) -> Result<(), PlanStop>
    ensures { Answers (allowed_capacity capacity) result }
{
    match capacity {
        None => Ok(()),
        Some(n) => {
            if n >= 1 && n <= CAPACITY_LIMIT {
                Ok(())
            } else {
                Err(PlanStop::Fault(PlanFault::Capacity(n)))
            }
        }
    }
}

fn same_capacity(before: Option<u32>, capacity: Option<u32>) -> Result<(), PlanStop>
    ensures { Answers (same_capacity before capacity) result }
{
    match (before, capacity) {
        (Some(before), Some(n)) => {
            if before == n {
                Ok(())
            } else {
                Err(PlanStop::Fault(PlanFault::Capacity(n)))
            }
        }
        _ => Ok(()),
    }
}

fn capacity_before(links: &[Link], link: Option<u32>) -> Option<u32>
    ensures { result ≡ capacity_before links.now link }
{
    match link {
        None => None,
        Some(c) => match links.get(c as usize) {
            None => None,
            Some(link) => link.capacity,
        },
    }
}

fn is_full(links: &[Link], link: Option<u32>) -> bool
    ensures { result ≡ is_full links.now link }
{
    match link {
        None => links.len() >= CONNECTION_LIMIT,
        Some(c) => match links.get(c as usize) {
            None => false,
            Some(link) => link.senders.len() >= SENDER_LIMIT,
        },
    }
}

/// Whether an element is bound.
pub fn is_taken(binding: Option<Binding>) -> bool
    ensures { result ≡ is_taken binding }
{
    match binding {
        None => false,
        Some(Binding::Free) => false,
        Some(_) => true,
    }
}

fn has_text(binding: Option<Binding>) -> bool
    ensures { result ≡ has_text binding }
{
    matches!(binding, Some(Binding::Given(_)))
}

/// That a port is taken.
pub fn taken_fault(alloc: Global, process: &[u8], port: &PortRef) -> Result<PlanFault, AllocError>
    ensures { IfOk result (λ fault. fault ≡ PlanFault.PortTaken process.now port.now) }
{
    let process = Text::from_slice(alloc, process)?;
    let port = port.copy(alloc)?;
    Ok(PlanFault::PortTaken(process, port))
}

fn initial_fault(alloc: Global, process: &[u8], port: &PortRef) -> Result<PlanFault, AllocError>
    ensures { IfOk result (λ fault. fault ≡ PlanFault.NeedsInitial process.now port.now) }
{
    let process = Text::from_slice(alloc, process)?;
    let port = port.copy(alloc)?;
    Ok(PlanFault::NeedsInitial(process, port))
}

/// Whether two ends may be joined, or the first thing that is against it.
pub fn may_join(
    alloc: Global,
    ports: &[DraftPort],
    links: &[Link],
    from: &[u8],
    out: &PortRef,
    to: &[u8],
    into: &PortRef,
    capacity: Option<u32>,
    output: End,
    input: End,
) -> Result<(), PlanStop>
    ensures { Answers (may_join ports.now links.now from.now out.now to.now into.now capacity output input) result }
{
    if !find::is_stream_at(ports, input) {
        return Err(PlanStop::Fault(initial_fault(alloc, to, into)?));
    }
    allowed_capacity(capacity)?;
    if is_taken(find::binding_at(ports, output)) {
        return Err(PlanStop::Fault(taken_fault(alloc, from, out)?));
    }
    if has_text(find::binding_at(ports, input)) {
        return Err(PlanStop::Fault(taken_fault(alloc, to, into)?));
    }
    let link = find::link_into(ports, input);
    same_capacity(capacity_before(links, link), capacity)?;
    if is_full(links, link) {
        return Err(PlanStop::Fault(PlanFault::TooMany(Many::Connections)));
    }
    Ok(())
}

/// Binds an element.
pub fn bind(ports: &mut Vec<DraftPort>, end: End, binding: Binding)
    requires { IsSome (binding_at ports.old.items end) }
    ensures { ports.new.items ≡ bound ports.old.items end binding }
{
    let port = &mut ports[end.port as usize];
    port.elements.set(end.element as usize, binding);
}

// A new connection, with its first sender.
fn open_link(
    alloc: Global,
    ports: &mut Vec<DraftPort>,
    links: &mut Vec<Link>,
    out: End,
    into: End,
    capacity: Option<u32>,
) -> Result<(), AllocError>
    requires few { length links.old.items ≤ CONNECTION_LIMIT }
    requires output { IsSome (binding_at ports.old.items out) }
    requires input { IsSome (binding_at ports.old.items into) }
    ensures links { OnOk result (links.new.items ≡ joined_links links.old.items out into capacity None) }
    ensures ports { OnOk result (ports.new.items ≡ joined_ports ports.old.items links.old.items out into None) }
    ensures same_links { OnErr result (links.new.items ≡ links.old.items) }
    ensures same_ports { OnErr result (ports.new.items ≡ ports.old.items) }
{
    let number = links.len() as u32;
    let senders = Items::of(vec![in alloc; out]?);
    links.push(Link {
        into,
        capacity,
        senders,
    })?;
    bind(ports, into, Binding::Receives(number));
    bind(ports, out, Binding::Sends(number, 0));
    Ok(())
}

fn first_given(before: Option<u32>, capacity: Option<u32>) -> Option<u32>
    ensures { result ≡ first_given before capacity }
{
    match before {
        Some(before) => Some(before),
        None => capacity,
    }
}

fn add_sender(
    links: &mut Vec<Link>,
    number: u32,
    out: End,
    capacity: Option<u32>,
) -> Result<u32, AllocError>
    requires there { number < length links.old.items }
    requires room { is_full links.old.items (Some number) ≡ false }
    ensures place { IfOk result (λ place. place ≡ next_sender (slice_get links.old.items number)) }
    ensures links { OnOk result (links.new.items ≡ updated (with_sender out capacity) links.old.items number) }
    ensures same { OnErr result (links.new.items ≡ links.old.items) }
{
    let link = &mut links[number as usize];
    let place = link.senders.len();
    link.senders.push(out)?;
    link.capacity = first_given(link.capacity, capacity);
    Ok(place as u32)
}

// One more sender of a connection.
fn extend_link(
    ports: &mut Vec<DraftPort>,
    links: &mut Vec<Link>,
    number: u32,
    out: End,
    into: End,
    capacity: Option<u32>,
) -> Result<(), AllocError>
    requires there { number < length links.old.items }
    requires room { is_full links.old.items (Some number) ≡ false }
    requires output { IsSome (binding_at ports.old.items out) }
    ensures links { OnOk result (links.new.items ≡ joined_links links.old.items out into capacity (Some number)) }
    ensures ports { OnOk result (ports.new.items ≡ joined_ports ports.old.items links.old.items out into (Some number)) }
    ensures same_links { OnErr result (links.new.items ≡ links.old.items) }
    ensures same_ports { OnErr result (ports.new.items ≡ ports.old.items) }
{
    let place = add_sender(links, number, out, capacity)?;
    bind(ports, out, Binding::Sends(number, place));
    Ok(())
}

/// Joins an output to an input: by a new connection where the input has none, and else as the last sender
/// of the one that it has.
pub fn join(
    alloc: Global,
    ports: &mut Vec<DraftPort>,
    links: &mut Vec<Link>,
    out: End,
    into: End,
    capacity: Option<u32>,
) -> Result<(), AllocError>
    requires few { length links.old.items ≤ CONNECTION_LIMIT }
    requires output { IsSome (binding_at ports.old.items out) }
    requires input { IsSome (binding_at ports.old.items into) }
    requires there { (c : ℕ) → link_into ports.old.items into ≡ Some c → c < length links.old.items }
    requires room { is_full links.old.items (link_into ports.old.items into) ≡ false }
    ensures links { OnOk result (links.new.items ≡ joined_links links.old.items out into capacity (link_into ports.old.items into)) }
    ensures ports { OnOk result (ports.new.items ≡ joined_ports ports.old.items links.old.items out into (link_into ports.old.items into)) }
    ensures same_links { OnErr result (links.new.items ≡ links.old.items) }
    ensures same_ports { OnErr result (ports.new.items ≡ ports.old.items) }
{
    match find::link_into(ports.as_slice(), into) {
        None => open_link(alloc, ports, links, out, into, capacity),
        Some(link) => extend_link(ports, links, link, out, into, capacity),
    }
}
