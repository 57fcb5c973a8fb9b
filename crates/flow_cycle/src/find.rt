//! The waiting cycle of a running net.
ghost use Rattle.std.specs.Prelude.{◌≡◌, ◌<◌, ◌+◌, ◌||◌, ◌↔◌, [], true, false, drop, length, IfOk, IfSome, IsTrue, Some, None, slice_get, slice_set, option_map, option_and_then, position, find};
ghost use Rattle.std.specs.List.{list_all};
ghost use Rattle.flow_model.specs.States.{State};
ghost use Rattle.flow_machine.specs.Nets.{looks_of};
ghost use Rattle.flow_machine.specs.Inlets.{watched};
ghost use Rattle.flow_plan.specs.declared.plan.Sender.{Sender};
ghost use Rattle.flow_cycle.specs.Waiting.{waits_for_sender, waits_for_receiver, rest_from, walk};
ghost use Rattle.flow_model.specs.Stages.{has_ended};
ghost use Rattle.flow_cycle.specs.Nets.{not_ended, first_on, wakes_in, waits_in, is_blocked, is_stuck, cycle_in, AllMarked, IsReached, IsCycleOf};

use crate::Waits;
use crate::block::{block_of, has_ended};
use flow_component::Component;
use flow_machine::{Block, Body, Net};
use flow_plan::{Plan, Sender};
use std::alloc::{AllocError, Global};

// The process is there and hasn't ended.
fn not_ended<K: Component>(net: &Net<K>, process: u32) -> bool
    ensures { result ≡ not_ended (slice_get net.now.bodies process) }
{
    if process < net.processes() {
        !has_ended(net.body(process).stage())
    } else {
        false
    }
}

// The first of these senders whose process hasn't ended.
fn first_of<K: Component>(net: &Net<K>, senders: &[Sender]) -> Option<Sender>
    ensures { result ≡ find (λ (s : Sender). not_ended (slice_get net.now.bodies s.process)) senders.now }
{
    for sender in senders {
        if not_ended(net, sender.process) {
            return Some(*sender);
        }
    }
    None
}

// The first sender of a connection whose process hasn't ended.
fn first_on<K: Component>(plan: &Plan, net: &Net<K>, connection: u32) -> Option<Sender>
    ensures { result ≡ first_on net.now.bodies (slice_get plan.now.connections connection) }
{
    match plan.connections().get(connection as usize) {
        Some(entry) => first_of(net, entry.senders.as_slice()),
        None => None,
    }
}

// That the process waits for this sender's, if there is one.
fn for_sender(process: u32, connection: u32, sender: Option<Sender>) -> Option<Waits>
    ensures { result ≡ option_map (waits_for_sender process connection) sender }
{
    match sender {
        Some(sender) => Some(Waits {
            process,
            connection,
            to: sender.process,
        }),
        None => None,
    }
}

// That the process waits for the connection's receiver.
fn for_receiver(plan: &Plan, process: u32, connection: u32) -> Option<Waits>
    ensures { result ≡ option_map (waits_for_receiver process connection) (slice_get plan.now.connections connection) }
{
    match plan.connections().get(connection as usize) {
        Some(entry) => Some(Waits {
            process,
            connection,
            to: entry.receiver,
        }),
        None => None,
    }
}

// What an idle process waits for at this input, if it is connected and a sender is open there.
fn wakes_at<K: Component>(
    plan: &Plan,
    net: &Net<K>,
    process: u32,
    connection: Option<u32>,
) -> Option<Waits>
    ensures { result ≡ option_and_then (λ c. option_map (waits_for_sender process c) (first_on net.now.bodies (slice_get plan.now.connections c))) connection }
{
    match connection {
        Some(connection) => for_sender(process, connection, first_on(plan, net, connection)),
        None => None,
    }
}

// What an idle process waits for at its inputs but the automatic one.
fn wakes<K: Component>(plan: &Plan, net: &Net<K>, process: u32, body: &Body<K>) -> Option<Waits>
    ensures { result ≡ wakes_in plan.now net.now.bodies process body.now.process.inputs }
{
    'inputs: for input in 0..body.inputs() {
        if let Some(found) = wakes_at(plan, net, process, body.input(input)) {
            return Some(found);
        }
    }
    None
}

// What an idle process waits for, at the inputs that it watches.
fn wakes_watched<K: Component>(
    plan: &Plan,
    net: &Net<K>,
    process: u32,
    body: &Body<K>,
) -> Option<Waits>
    requires within { process < length net.now.bodies }
    requires there { slice_get net.now.bodies process ≡ Some body.now }
    ensures { result ≡ wakes_in plan.now net.now.bodies process (watched (looks_of net.now.channels) body.now.process) }
{
    if net.watches_signal(process) {
        wakes_at(plan, net, process, body.signal())
    } else {
        wakes(plan, net, process, body)
    }
}

// What a process waits for, if it is blocked.
fn waits<K: Component>(plan: &Plan, net: &Net<K>, process: u32) -> Option<Waits>
    ensures { result ≡ waits_in plan.now net.now process }
{
    if process >= net.processes() {
        return None;
    }
    match block_of(net, process) {
        Some(
            Block::Full {
                connection,
                port: _,
            },
        ) => for_receiver(plan, process, connection),
        Some(
            Block::Empty {
                connection,
                port: _,
            },
        ) => for_sender(process, connection, first_on(plan, net, connection)),
        Some(Block::Dormant) => wakes_watched(plan, net, process, net.body(process)),
        None => None,
    }
}

// Where on the way the process stands first, if it does.
fn place_of(way: &[Waits], process: u32) -> Option<usize>
    ensures within { IfSome result (λ place. place < length way.now) }
    ensures rest { rest_from process way.now ≡ option_map (λ place. drop place way.now) result }
{
    'places: for place in 0..way.len() {
        if process == way[place].process {
            return Some(place);
        }
    }
    None
}

// The rest of the way.
fn rest(alloc: Global, way: &[Waits], place: usize) -> Result<Vec<Waits>, AllocError>
    requires { place < length way.now }
    ensures { IfOk result (λ rest. rest.items ≡ drop place way.now) }
{
    let mut rest = Vec::new(alloc);
    rest.extend_from_slice(&way[place..])?;
    Ok(rest)
}

// There is a mark for the process, and it isn't set.
fn is_unmarked(marks: &[bool], process: u32) -> bool
    ensures { IsTrue result ↔ slice_get marks.now process ≡ Some false }
{
    match marks.get(process as usize) {
        Some(mark) => !*mark,
        None => false,
    }
}

// Sets the mark of the process, if there is one.
fn mark(marks: &mut Vec<bool>, process: u32)
    ensures { marks.new.items ≡ slice_set marks.old.items process true }
{
    if (process as usize) < marks.len() {
        marks[process as usize] = true;
    }
}

// Where on the way the process stands first, if it does. Only one with a mark is looked for, so that the whole walk looks once.
fn come_back(marks: &[bool], way: &[Waits], process: u32) -> Option<usize>
    requires { AllMarked marks.now way.now }
    ensures within { IfSome result (λ place. place < length way.now) }
    ensures rest { rest_from process way.now ≡ option_map (λ place. drop place way.now) result }
{
    if is_unmarked(marks, process) {
        return None;
    }
    place_of(way, process)
}

// The cycle to which the way from this process leads.
fn walk<K: Component>(
    alloc: Global,
    plan: &Plan,
    net: &Net<K>,
    first: u32,
) -> Result<Option<Vec<Waits>>, AllocError>
    ensures { IfOk result (λ found. option_map (λ cycle. cycle.items) found ≡ walk (waits_in plan.now net.now) (length net.now.bodies + 1) [] first) }
{
    let steps = net.processes() + 1;
    let mut marks = vec![in alloc; false; net.processes() as usize]?;
    let mut way = Vec::new(alloc);
    let mut process = first;
    'steps: for _ in 0..steps {
        if let Some(place) = come_back(marks.as_slice(), &way, process) {
            return Ok(Some(rest(alloc, &way, place)?));
        }
        let Some(next) = waits(plan, net, process) else {
            return Ok(None);
        };
        mark(&mut marks, process);
        way.push(next)?;
        process = next.to;
    }
    Ok(None)
}

fn is_blocked<K: Component>(net: &Net<K>, process: u32) -> bool
    requires { process < length net.now.bodies }
    ensures { IfSome (slice_get net.now.bodies process) (λ b. result ≡ is_blocked net.now b) }
{
    block_of(net, process).is_some()
}

fn has_ended_or_is_blocked<K: Component>(net: &Net<K>, process: u32) -> bool
    requires { process < length net.now.bodies }
    ensures { IfSome (slice_get net.now.bodies process) (λ b. result ≡ (has_ended b.process.stage || is_blocked net.now b)) }
{
    let ended = has_ended(net.body(process).stage());
    let blocked = is_blocked(net, process);
    ended | blocked
}

fn is_stuck<K: Component>(net: &Net<K>) -> bool
    ensures { result ≡ is_stuck net.now }
{
    for process in 0..net.processes() {
        if !has_ended_or_is_blocked(net, process) {
            return false;
        }
    }
    true
}

fn lowest_blocked<K: Component>(net: &Net<K>) -> Option<u32>
    ensures { result ≡ position (is_blocked net.now) net.now.bodies }
{
    for process in 0..net.processes() {
        if is_blocked(net, process) {
            return Some(process);
        }
    }
    None
}

/// The waiting cycle of a net of this plan: where whoever follows for whom each blocked process waits, from the lowest one on, goes round.
/// A process that is blocked full waits for its connection's receiver, one that is blocked empty for its connection's first open
/// sender, and a dormant one for the first open sender of the lowest connected input that it watches and that has one. Each waits for
/// the next one's process, and the last for the first. `None`: the net is in no deadlock.
///
/// Such cycles are Morrison's (Deadlocks: Prevention and Detection); which one is told is this project's own.
pub fn cycle<K: Component>(
    alloc: Global,
    plan: &Plan,
    net: &Net<K>,
) -> Result<Option<Vec<Waits>>, AllocError>
    ensures found { IfOk result (λ found. option_map (λ cycle. cycle.items) found ≡ cycle_in plan.now net.now) }
    ensures exact { IfOk result (λ found. (s : State K) → IsReached K.rules plan.now net.now s → IsCycleOf plan.now s (option_map (λ cycle. cycle.items) found)) }
{
    if !is_stuck(net) {
        return Ok(None);
    }
    match lowest_blocked(net) {
        Some(first) => walk(alloc, plan, net, first),
        None => Ok(None),
    }
}
