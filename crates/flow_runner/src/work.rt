//! What a worker does with one process.
ghost use Rattle.flow_floor.specs.Bursts.{IsOneAtMost, PassesInBurst};
ghost use Rattle.flow_floor.specs.Floors.{BurstsAt, IsHeldAt, IsIdleAt, IsSameWorker, IsWiredAt, HasSameShare, Readies, asked_of, process_count, turns_of};
ghost use Rattle.flow_machine.specs.Thoughts.{IsSet, PassesFirst};
ghost use Rattle.flow_runner.specs.Attempts.{Adds, LetsGo, MayGo, PassesInAttempt, Spends, made_in};
ghost use Rattle.flow_runner.specs.Lines.{IsPassAt};
ghost use Rattle.flow_runner.specs.Serving.{names_of, IsLineFor, MayStandIn, Pushes, PushesBut};
ghost use Rattle.flow_runner.specs.declared.tuned.TheConstants.{PUSHED_AFTER};
ghost use Rattle.std.specs.Prelude.{◌≡◌, ◌+◌, ◌<◌, ◌≤◌, ℕ, ◌++◌, [], ◌∷◌, ◌⊎◌};

use crate::line::{Line, LinePass};
use crate::readied::{Unpushed, keep_woken, push_all, push_woken};
use crate::stint::Stint;
use flow_component::{Component, Gate};
use flow_floor::{Burst, Claim, Floor, Held, Turned, Worker};
use flow_limits::RUN_LIMIT;
use flow_machine::{Over, Thought};
use std::sync::Wait;

/// What an attempt at turns of a held process came to.
pub(crate) enum Attempt {
    /// So many turns were made.
    Made(u32),
    /// Another worker is at the sending end of the turn's connection.
    Busy,
    /// The process waits for others.
    Blocked,
    /// It has no further turn.
    Over(Over),
}

/// A whole turn of the held process, if it has one now, as a burst of its own.
fn whole_turn<K: Component>(floor: &Floor<K>, worker: &mut Worker<K>, held: &mut Held<K>) -> Burst
    requires held { IsHeldAt K.rules floor.now worker.old held.old }
    requires wired { IsWiredAt floor.now held.old }
    requires set { IsSet held.old.body }
    ensures held { IsHeldAt K.rules floor.now worker.new held.new }
    ensures wired { IsWiredAt floor.now held.new }
    ensures burst { (most : ℕ) → 1 ≤ most → BurstsAt K.rules floor.now most held.old worker.old held.new worker.new result }
    ensures one { IsOneAtMost result }
    ensures same { IsSameWorker worker.old worker.new }
    ensures readies { Readies floor.now worker.old worker.new }
{
    match floor.turn(worker, held) {
        Turned::Made(first) => Burst::Made { first, count: 1 },
        Turned::Busy(connection, word) => Burst::Busy(connection, word),
        Turned::Blocked(block, word) => Burst::Blocked(block, word),
        Turned::Over(over) => Burst::Over(over),
    }
}

/// Turns of the held process, so many at most, if it has one now. One alone is told before the process thinks again; a burst thinks once more first.
#[inline(always)]
fn whole_or_burst<K: Component, G: Gate>(
    floor: &Floor<K>,
    worker: &mut Worker<K>,
    held: &mut Held<K>,
    gate: &G,
    most: u32,
) -> Burst
    requires most { 1 ≤ most }
    requires held { IsHeldAt K.rules floor.now worker.old held.old }
    requires wired { IsWiredAt floor.now held.old }
    requires set { IsSet held.old.body }
    ensures held { IsHeldAt K.rules floor.now worker.new held.new }
    ensures wired { IsWiredAt floor.now held.new }
    ensures burst { BurstsAt K.rules floor.now most held.old worker.old held.new worker.new result }
    ensures passed { PassesInBurst (G.has_passed gate.now) held.old.body result }
    ensures same { IsSameWorker worker.old worker.new }
    ensures readies { Readies floor.now worker.old worker.new }
{
    if most == 1 {
        return whole_turn(floor, worker, held);
    }
    floor.burst(worker, held, gate, most)
}

/// Turns of the held process, so many at most, if it has one now. Those whom they made ready are pushed soon.
#[inline(always)]
fn make_burst<K: Component, G: Gate, R: Wait>(
    rt: &R,
    floor: &Floor<K>,
    line: &Line,
    worker: &mut Worker<K>,
    pass: &mut LinePass,
    unpushed: &mut Unpushed,
    held: &mut Held<K>,
    gate: &G,
    most: u32,
) -> Burst
    requires most { 1 ≤ most }
    requires held { IsHeldAt K.rules floor.now worker.old held.old }
    requires wired { IsWiredAt floor.now held.old }
    requires set { IsSet held.old.body }
    requires line { IsLineFor floor.now line.now }
    requires pass { IsPassAt line.now pass.old }
    requires left { MayStandIn line.now (names_of unpushed.old) }
    ensures held { IsHeldAt K.rules floor.now worker.new held.new }
    ensures wired { IsWiredAt floor.now held.new }
    ensures burst { BurstsAt K.rules floor.now most held.old worker.old held.new worker.new result }
    ensures passed { PassesInBurst (G.has_passed gate.now) held.old.body result }
    ensures same { IsSameWorker worker.old worker.new }
    ensures pushes { PushesBut line.now worker.old pass.old (names_of unpushed.old) worker.new pass.new (names_of unpushed.new) }
    ensures left { MayStandIn line.now (names_of unpushed.new) }
    ensures due { PUSHED_AFTER ≤ unpushed.old.turns + made_in result → names_of unpushed.new ≡ [] }
    ensures counts { (names_of unpushed.new ≡ []) ⊎ (unpushed.new.turns ≡ unpushed.old.turns + made_in result) }
{
    let burst = whole_or_burst(floor, worker, held, gate, most);
    let made = match &burst {
        Burst::Made { first: _, count } => *count,
        _ => 0,
    };
    keep_woken(rt, line, worker, pass, unpushed, made);
    burst
}

/// Has the held process think, and makes turns of it, no more than are left, if it has one now. How many it makes at most is asked behind the thought: what
/// is seen meanwhile of how long that takes counts for them.
#[inline(always)]
fn try_turns<K: Component, G: Gate, R: Wait>(
    rt: &R,
    floor: &Floor<K>,
    line: &Line,
    worker: &mut Worker<K>,
    pass: &mut LinePass,
    unpushed: &mut Unpushed,
    held: &mut Held<K>,
    gate: &G,
    stint: &mut Stint,
) -> Attempt
    requires some { 1 ≤ stint.old.left }
    requires held { IsHeldAt K.rules floor.now worker.old held.old }
    requires wired { IsWiredAt floor.now held.old }
    requires line { IsLineFor floor.now line.now }
    requires pass { IsPassAt line.now pass.old }
    requires left { MayStandIn line.now (names_of unpushed.old) }
    ensures held { IsHeldAt K.rules floor.now worker.new held.new }
    ensures wired { IsWiredAt floor.now held.new }
    ensures may { MayGo floor.now worker.new held.new result }
    ensures same { IsSameWorker worker.old worker.new }
    ensures adds { Adds stint.new.left result (turns_of worker.old) (turns_of worker.new) }
    ensures kept { stint.new.left ≡ stint.old.left }
    ensures passed { PassesFirst (G.has_passed gate.now) held.old.body }
    ensures between { PassesInAttempt (G.has_passed gate.now) held.old.body.process.turns result }
    ensures pushes { PushesBut line.now worker.old pass.old (names_of unpushed.old) worker.new pass.new (names_of unpushed.new) }
    ensures left { MayStandIn line.now (names_of unpushed.new) }
{
    match held.think(gate) {
        Thought::Wishing => {
            let most = stint.next();
            unpushed.push_after(most);
            match make_burst(rt, floor, line, worker, pass, unpushed, held, gate, most) {
                Burst::Made { first: _, count } => Attempt::Made(count),
                Burst::Busy(_, _) => Attempt::Busy,
                Burst::Blocked(_, _) => Attempt::Blocked,
                Burst::Over(over) => Attempt::Over(over),
            }
        }
        Thought::Failed(_) => Attempt::Over(Over::Failed),
        Thought::NoMemory => Attempt::Over(Over::Starved),
    }
}

/// Makes turns of the held process, no more than are left, while it has them. No run has more than `RUN_LIMIT`.
#[inline(always)]
fn work<K: Component, G: Gate, R: Wait>(
    rt: &R,
    floor: &Floor<K>,
    line: &Line,
    worker: &mut Worker<K>,
    pass: &mut LinePass,
    unpushed: &mut Unpushed,
    held: &mut Held<K>,
    gate: &G,
    stint: &mut Stint,
) -> Attempt
    requires held { IsHeldAt K.rules floor.now worker.old held.old }
    requires wired { IsWiredAt floor.now held.old }
    requires line { IsLineFor floor.now line.now }
    requires pass { IsPassAt line.now pass.old }
    requires left { MayStandIn line.now (names_of unpushed.old) }
    ensures held { IsHeldAt K.rules floor.now worker.new held.new }
    ensures may { MayGo floor.now worker.new held.new result }
    ensures same { IsSameWorker worker.old worker.new }
    ensures spends { Spends (turns_of worker.old) stint.old.left (turns_of worker.new) stint.new.left }
    ensures passed { 1 ≤ stint.old.left → PassesFirst (G.has_passed gate.now) held.old.body }
    ensures pushes { PushesBut line.now worker.old pass.old (names_of unpushed.old) worker.new pass.new (names_of unpushed.new) }
    ensures left { MayStandIn line.now (names_of unpushed.new) }
{
    for _burst in 0..RUN_LIMIT {
        if stint.left == 0 {
            return Attempt::Made(0);
        }
        match try_turns(rt, floor, line, worker, pass, unpushed, held, gate, stint) {
            Attempt::Made(count) => stint.made(count, unpushed.takes_pushed()),
            Attempt::Busy => return Attempt::Busy,
            Attempt::Blocked => return Attempt::Blocked,
            Attempt::Over(over) => return Attempt::Over(over),
        }
    }
    Attempt::Made(0)
}

/// Lets the process go, as the last attempt asks for: blocked, it is parked; over, it is retired; else it is ready for the next worker.
#[inline(always)]
fn let_go<K: Component>(floor: &Floor<K>, worker: &mut Worker<K>, held: Held<K>, last: Attempt)
    requires held { IsHeldAt K.rules floor.now worker.old held }
    requires may { MayGo floor.now worker.old held last }
    ensures lets_go { LetsGo held worker.old worker.new last }
    ensures idle { IsIdleAt floor.now worker.new }
    ensures same { IsSameWorker worker.old worker.new }
    ensures made { turns_of worker.new ≡ turns_of worker.old }
    ensures readies { Readies floor.now worker.old worker.new }
{
    match last {
        Attempt::Made(_) => floor.hand_back(worker, held),
        Attempt::Busy => floor.hand_back(worker, held),
        Attempt::Blocked => floor.park(worker, held),
        Attempt::Over(over) => floor.retire(worker, held, over),
    }
}

/// Claims the process, which was popped, and makes turns of it; whoever is ready by that is pushed. False: it was left, since another worker is at its sending end.
pub(crate) fn tend<K: Component, G: Gate, R: Wait>(
    rt: &R,
    floor: &Floor<K>,
    line: &Line,
    worker: &mut Worker<K>,
    pass: &mut LinePass,
    process: usize,
    gate: &G,
    stint: &mut Stint,
) -> bool
    requires idle { IsIdleAt floor.now worker.old }
    requires range { process < process_count floor.now }
    requires line { IsLineFor floor.now line.now }
    requires pass { IsPassAt line.now pass.old }
    ensures idle { IsIdleAt floor.now worker.new }
    ensures share { HasSameShare worker.old worker.new }
    ensures asked { asked_of worker.new ≡ asked_of worker.old ++ process ∷ [] }
    ensures spends { Spends (turns_of worker.old) stint.old.left (turns_of worker.new) stint.new.left }
    ensures pushes { Pushes line.now worker.old pass.old worker.new pass.new }
{
    match floor.claim(worker, process) {
        Claim::Held(mut held) => {
            let mut unpushed = Unpushed::none();
            let last = work(
                rt,
                floor,
                line,
                worker,
                pass,
                &mut unpushed,
                &mut held,
                gate,
                stint,
            );
            let waits = matches!(&last, Attempt::Busy);
            let_go(floor, worker, held, last);
            push_all(rt, line, pass, &mut unpushed);
            push_woken(rt, line, worker, pass);
            !waits
        }
        Claim::NotReady(_) => true,
    }
}
