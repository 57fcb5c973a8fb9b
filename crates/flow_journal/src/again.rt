//! A run, made again by its journal.
ghost use Rattle.std.specs.Prelude.{◌≡◌, ◌≤◌, length, [], IfOk, IfErr, OnOk};
ghost use Rattle.flow_machine.specs.Logs.{turns_made};
ghost use Rattle.flow_machine.specs.Solo.{Goes};
ghost use Rattle.flow_machine.specs.Starts.{AllSet};
ghost use Rattle.flow_journal.specs.Replays.{replayed, StopsFrom};
ghost use Rattle.flow_journal.specs.Replaying.{LeadsOn, StopsMaking};

use crate::merge::Journal;
use crate::refusal::{Refusal, ReplayStop};
use crate::turn::{make_turn, settle, settle_all};
use flow_component::Component;
use flow_limits::RUN_LIMIT;
use flow_machine::{Closed, Net};
use std::alloc::Global;

/// Makes the turns of a journal, each with its work, and sees that all its numbers are used up.
fn make_turns<K: Component>(net: &mut Net<K>, journal: &Journal) -> Result<(), ReplayStop>
    requires set { AllSet net.old.bodies }
    requires few { length journal.now.turns ≤ RUN_LIMIT }
    ensures set { OnOk result (AllSet net.new.bodies) }
    ensures len { OnOk result (length net.new.bodies ≡ length net.old.bodies) }
    ensures goes { OnOk result (Goes K.rules (LeadsOn K.rules journal.now) net.old (turns_made net.old) net.new (turns_made net.new)) }
    ensures stops { IfErr result (StopsMaking K.rules net.old journal.now) }
{
    let first = net.turns_made();
    let turns = journal.turns.as_slice();
    let mut left = journal.seen.as_slice();
    for (place, process) in turns.iter().enumerate() {
        let process = u32::from(*process);
        match make_turn(net, process, first + place as u32, left) {
            Ok(after) => left = after,
            Err(refusal) => {
                return Err(ReplayStop::NoTurn {
                    place: place as u64,
                    process,
                    refusal,
                });
            }
        }
        settle(net, process)?;
    }
    if left.is_empty() {
        return Ok(());
    }
    Err(ReplayStop::NoTurn {
        place: turns.len() as u64,
        process: 0,
        refusal: Refusal::Seen,
    })
}

/// All pending works, and then the turns of a journal.
fn make_again<K: Component>(net: &mut Net<K>, journal: &Journal) -> Result<(), ReplayStop>
    requires few { length journal.now.turns ≤ RUN_LIMIT }
    ensures set { OnOk result (AllSet net.new.bodies) }
    ensures goes { OnOk result (Goes K.rules (replayed K.rules journal.now) net.old (turns_made net.old) net.new (turns_made net.new)) }
    ensures stops { IfErr result (StopsFrom K.rules net.old journal.now) }
{
    settle_all(net)?;
    make_turns(net, journal)
}

/// Makes the turns of a journal in a network, in their order, each with its work: all pending works are done before. Each turn of the journal is
/// defined in its place, a turn that asks for a level sees the next number of the journal, and these are used up; else the first place where it
/// isn't so is told, and the network is given up. The journal isn't copied.
pub fn replay<K: Component>(
    alloc: Global,
    net: Net<K>,
    journal: &Journal,
) -> Result<Closed<K>, ReplayStop>
    requires few { length journal.now.turns ≤ RUN_LIMIT }
    ensures replays { IfOk result (λ closed. Goes K.rules (replayed K.rules journal.now) net (turns_made net) closed.net (turns_made closed.net)) }
    ensures set { IfOk result (λ closed. AllSet closed.net.bodies) }
    ensures none { IfOk result (λ closed. closed.starved.items ≡ []) }
    ensures stops { IfErr result (StopsFrom K.rules net journal.now) }
{
    let mut net = net;
    match make_again(&mut net, journal) {
        Ok(()) => Ok(Closed {
            net,
            starved: Vec::new(alloc),
        }),
        Err(stop) => {
            net.discard();
            Err(stop)
        }
    }
}
