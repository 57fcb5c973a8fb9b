//! A journal, and how it is read off a net.
ghost use Rattle.std.specs.Prelude.{◌≡◌, ◌<◌, ◌≤◌, ◌^◌, ◌==◌, ℕ, All, length, drop, IfOk, slice_get, Some};
ghost use Rattle.std.specs.List.{list_all};
ghost use Rattle.flow_machine.specs.Logs.{turns_made};
ghost use Rattle.flow_journal.specs.Journals.{Marks, NamesTurns, NamesSeen, TakesNumbers};

use flow_component::Component;
use flow_items::Items;
use flow_machine::Net;
use std::alloc::{AllocError, Global};

/// A run as it went: the number of the process of each turn, in the order of the stamps, and the numbers that the level turns saw, in
/// that order. (This project's own.)
#[derive(Debug, Drop)]
pub struct Journal {
    pub turns: Items<u8>,
    pub seen: Items<u16>,
}

/// Writes the process at the place of each of its stamps.
fn mark(turns: &mut [u8], stamps: &[u32], process: u8)
    requires { All (λ stamp. stamp < length turns.old) stamps.now }
    ensures { Marks stamps.now process turns.old turns.new }
{
    for stamp in stamps {
        turns[*stamp as usize] = process;
    }
}

/// Writes the process of each turn at the place of its stamp.
fn mark_all<K: Component>(turns: &mut [u8], net: &Net<K>)
    requires { length turns.old ≡ turns_made net.now }
    ensures { NamesTurns net.now turns.new }
{
    let _made = net.turns_made();
    for process in 0..net.processes() {
        mark(turns, net.body(process).turns(), process as u8);
    }
}

/// The process of each turn, in the order of the stamps.
fn turns_of<K: Component>(alloc: Global, net: &Net<K>) -> Result<Vec<u8>, AllocError>
    ensures { IfOk result (λ turns. NamesTurns net.now turns.items) }
{
    let mut turns = vec![in alloc; 0u8; net.turns_made() as usize]?;
    mark_all(&mut turns, net);
    Ok(turns)
}

/// Appends the numbers that stand under this stamp from a place on. It gives the place after them.
fn take_numbers(
    seen: &mut Vec<u16>,
    levels: &[(u32, u16)],
    from: usize,
    stamp: u32,
) -> Result<usize, AllocError>
    requires { from ≤ length levels.now }
    ensures { IfOk result (λ next. TakesNumbers (drop from levels.now) stamp seen.old.items seen.new.items (drop next levels.now) × (next ≤ length levels.now)) }
{
    let mut next = from;
    while next < levels.len() && levels[next].0 == stamp {
        seen.push(levels[next].1)?;
        next += 1;
    }
    Ok(next)
}

/// No process remembers a number that it saw.
fn saw_none<K: Component>(net: &Net<K>) -> bool
    ensures { result ≡ list_all (λ b. length b.levels == 0) net.now.bodies }
{
    for process in 0..net.processes() {
        if !net.body(process).levels().is_empty() {
            return false;
        }
    }
    true
}

/// The numbers that the level turns saw, in the order of the stamps. Where no process saw one, the turns aren't gone through.
fn seen_of<K: Component>(alloc: Global, net: &Net<K>, turns: &[u8]) -> Result<Vec<u16>, AllocError>
    requires { NamesTurns net.now turns.now }
    ensures { IfOk result (λ seen. NamesSeen net.now seen.items) }
{
    // for what it promises: each turn was made by a process of the net
    let _made = net.turns_made();
    let mut seen = Vec::new(alloc);
    if saw_none(net) {
        return Ok(seen);
    }
    let mut places = vec![in alloc; 0usize; net.processes() as usize]?;
    for (stamp, process) in turns.iter().enumerate() {
        let levels = net.body(u32::from(*process)).levels();
        let place = &mut places[*process as usize];
        *place = take_numbers(&mut seen, levels, *place, stamp as u32)?;
    }
    Ok(seen)
}

impl Journal {
    /// The journal of the turns that were made in a net.
    pub fn merge<K: Component>(alloc: Global, net: &Net<K>) -> Result<Journal, AllocError>
        ensures turns { IfOk result (λ journal. NamesTurns net.now journal.turns) }
        ensures seen { IfOk result (λ journal. NamesSeen net.now journal.seen) }
    {
        let turns = turns_of(alloc, net)?;
        let seen = seen_of(alloc, net, &turns)?;
        Ok(Journal {
            turns: Items::of(turns),
            seen: Items::of(seen),
        })
    }
}
