//! One turn of a journal, and its work.
ghost use Rattle.std.specs.Prelude.{◌≡◌, ◌<◌, length, false, IfOk, IfErr, OnOk};
ghost use Rattle.flow_machine.specs.Logs.{turns_made};
ghost use Rattle.flow_machine.specs.Nets.{IsAt, asks_level, is_asking};
ghost use Rattle.flow_machine.specs.Solo.{Goes, SettlesNet, all_settled};
ghost use Rattle.flow_machine.specs.Starts.{AllSet};
ghost use Rattle.flow_journal.specs.Replaying.{MadeTurn, RefusesTurn};

use crate::refusal::Refusal;
use flow_component::{Component, NoGate};
use flow_machine::{Net, Thought, Turn};
use std::alloc::AllocError;

/// The turn of a process that asks for a level: it is told the first of the numbers.
fn make_level_turn<'a, K: Component>(
    net: &mut Net<K>,
    process: u32,
    stamp: u32,
    seen: &'a [u16],
) -> Result<&'a [u16], Refusal>
    requires in_range { process < length net.old.bodies }
    requires set { AllSet net.old.bodies }
    requires next { stamp ≡ turns_made net.old }
    requires asks { IsAt net.old process asks_level }
    ensures made { IfOk result (λ left. MadeTurn net.old process stamp seen.now left.now net.new) }
    ensures refused { IfErr result (RefusesTurn net.old process seen.now) }
{
    let Some((number, left)) = seen.split_first() else {
        return Err(Refusal::Seen);
    };
    match net.turn_seen(process, stamp, u32::from(*number)) {
        Some(_) => Ok(left),
        None => Err(Refusal::Seen),
    }
}

/// The turn of a process that asks for no level: it sees no number.
fn make_plain_turn<'a, K: Component>(
    net: &mut Net<K>,
    process: u32,
    stamp: u32,
    seen: &'a [u16],
) -> Result<&'a [u16], Refusal>
    requires in_range { process < length net.old.bodies }
    requires set { AllSet net.old.bodies }
    requires next { stamp ≡ turns_made net.old }
    requires asks { IsAt net.old process (λ stage. is_asking stage ≡ false) }
    ensures made { IfOk result (λ left. MadeTurn net.old process stamp seen.now left.now net.new) }
    ensures refused { IfErr result (RefusesTurn net.old process seen.now) }
{
    match net.turn(process, stamp) {
        Turn::Made(_) => Ok(seen),
        Turn::Blocked(block) => Err(Refusal::Blocked(block)),
        Turn::Over(_) => Err(Refusal::Over),
    }
}

/// Makes the turn of a process, by which it sees the first of the numbers where it asks for one. It gives those that are left.
pub(crate) fn make_turn<'a, K: Component>(
    net: &mut Net<K>,
    process: u32,
    stamp: u32,
    seen: &'a [u16],
) -> Result<&'a [u16], Refusal>
    requires set { AllSet net.old.bodies }
    requires next { stamp ≡ turns_made net.old }
    ensures made { IfOk result (λ left. MadeTurn net.old process stamp seen.now left.now net.new) }
    ensures refused { IfErr result (RefusesTurn net.old process seen.now) }
{
    if process >= net.processes() {
        return Err(Refusal::NoProcess);
    }
    if net.wishes_level(process) {
        return make_level_turn(net, process, stamp, seen);
    }
    make_plain_turn(net, process, stamp, seen)
}

/// Does the pending work of a process, and takes the room of its next turn.
pub(crate) fn settle<K: Component>(net: &mut Net<K>, process: u32) -> Result<(), AllocError>
    requires { process < length net.old.bodies }
    ensures settles { OnOk result (SettlesNet K.rules net.old process net.new) }
    ensures len { length net.new.bodies ≡ length net.old.bodies }
    ensures turns { turns_made net.new ≡ turns_made net.old }
{
    match net.think(process, &NoGate) {
        Thought::Wishing => Ok(()),
        Thought::Failed(_) => Ok(()),
        Thought::NoMemory => Err(AllocError),
    }
}

/// Does all pending works, process by process.
pub(crate) fn settle_all<K: Component>(net: &mut Net<K>) -> Result<(), AllocError>
    ensures set { OnOk result (AllSet net.new.bodies) }
    ensures goes { OnOk result (Goes K.rules (all_settled K.rules) net.old (turns_made net.old) net.new (turns_made net.old)) }
    ensures len { length net.new.bodies ≡ length net.old.bodies }
    ensures turns { turns_made net.new ≡ turns_made net.old }
{
    for process in 0..net.processes() {
        settle(net, process)?;
    }
    Ok(())
}
