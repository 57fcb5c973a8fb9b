//! The floor's calls, each with the answer that is wanted of it.
ghost use Rattle.flow_floor.specs.Floors.{HasSameShare, IsHeldAt, IsIdleAt, IsStuckAt, IsWiredAt, process_count};
ghost use Rattle.std.specs.Prelude.{◌≡◌, ◌<◌};

use flow_component::{Component, NoGate};
use flow_floor::{Claim, Floor, Held, Turned, Worker};
use flow_machine::{Block, Thought};
use std::process::Abort;

/// Claims a process that is ready.
pub(crate) fn claims<K: Component>(
    rt: &impl Abort,
    floor: &Floor<K>,
    worker: &mut Worker<K>,
    process: usize,
) -> Held<K>
    requires idle { IsIdleAt floor.now worker.old }
    requires range { process < process_count floor.now }
    ensures held { IsHeldAt K.rules floor.now worker.new result }
    ensures wired { IsWiredAt floor.now result }
    ensures share { HasSameShare worker.old worker.new }
{
    match floor.claim(worker, process) {
        Claim::Held(held) => held,
        Claim::NotReady(word) => panic!(rt; "not ready but {word}"),
    }
}

/// Doesn't get a process that isn't ready: its word is this.
pub(crate) fn claims_in_vain<K: Component>(
    rt: &impl Abort,
    floor: &Floor<K>,
    worker: &mut Worker<K>,
    process: usize,
    word: u64,
)
    requires idle { IsIdleAt floor.now worker.old }
    requires range { process < process_count floor.now }
    ensures idle { IsIdleAt floor.now worker.new }
    ensures share { HasSameShare worker.old worker.new }
{
    match floor.claim(worker, process) {
        Claim::Held(held) => {
            floor.hand_back(worker, held);
            panic!(rt; "ready")
        }
        Claim::NotReady(found) => assert_eq!(rt; found, word),
    }
}

/// Has the held process think and make a turn, which has this stamp.
pub(crate) fn makes<K: Component>(
    rt: &impl Abort,
    floor: &Floor<K>,
    worker: &mut Worker<K>,
    held: &mut Held<K>,
    stamp: u32,
)
    requires held { IsHeldAt K.rules floor.now worker.old held.old }
    requires wired { IsWiredAt floor.now held.old }
    ensures held { IsHeldAt K.rules floor.now worker.new held.new }
    ensures wired { IsWiredAt floor.now held.new }
    ensures share { HasSameShare worker.old worker.new }
{
    let Thought::Wishing = held.think(&NoGate) else {
        panic!(rt; "no room, or a failure")
    };
    match floor.turn(worker, held) {
        Turned::Made(made) => assert_eq!(rt; made, stamp),
        Turned::Busy(_, _) => panic!(rt; "another worker is at its sending end"),
        Turned::Blocked(_, _) => panic!(rt; "blocked"),
        Turned::Over(_) => panic!(rt; "over"),
    }
}

/// Has the held process think and stay dormant, by this word of its input.
pub(crate) fn stays_dormant<K: Component>(
    rt: &impl Abort,
    floor: &Floor<K>,
    worker: &mut Worker<K>,
    held: &mut Held<K>,
    word: u64,
)
    requires held { IsHeldAt K.rules floor.now worker.old held.old }
    requires wired { IsWiredAt floor.now held.old }
    ensures held { IsHeldAt K.rules floor.now worker.new held.new }
    ensures stuck { IsStuckAt floor.now worker.new held.new }
    ensures share { HasSameShare worker.old worker.new }
{
    let Thought::Wishing = held.think(&NoGate) else {
        panic!(rt; "no room, or a failure")
    };
    match floor.turn(worker, held) {
        Turned::Blocked(block, found) => {
            assert_eq!(rt; block, Block::Dormant);
            assert_eq!(rt; found, word);
        }
        Turned::Made(_) => panic!(rt; "a turn"),
        Turned::Busy(_, _) => panic!(rt; "another worker is at its sending end"),
        Turned::Over(_) => panic!(rt; "over"),
    }
}

/// Parks the process.
pub(crate) fn parks<K: Component>(floor: &Floor<K>, worker: &mut Worker<K>, held: Held<K>)
    requires held { IsHeldAt K.rules floor.now worker.old held }
    requires stuck { IsStuckAt floor.now worker.old held }
    ensures idle { IsIdleAt floor.now worker.new }
    ensures share { HasSameShare worker.old worker.new }
{
    floor.park(worker, held);
}

/// Hands the process back.
pub(crate) fn hands_back<K: Component>(floor: &Floor<K>, worker: &mut Worker<K>, held: Held<K>)
    requires held { IsHeldAt K.rules floor.now worker.old held }
    ensures idle { IsIdleAt floor.now worker.new }
    ensures share { HasSameShare worker.old worker.new }
{
    floor.hand_back(worker, held);
}

/// Reads that so many processes are ready or held.
pub(crate) fn reads_live<K: Component>(
    rt: &impl Abort,
    floor: &Floor<K>,
    worker: &mut Worker<K>,
    live: u64,
)
    requires idle { IsIdleAt floor.now worker.old }
    ensures idle { IsIdleAt floor.now worker.new }
    ensures share { HasSameShare worker.old worker.new }
{
    assert_eq!(rt; floor.live(worker), live);
}

/// The worker's last call made these processes ready.
pub(crate) fn woke<K: Component>(rt: &impl Abort, worker: &Worker<K>, processes: &[u32]) {
    assert_eq!(rt; worker.woken(), processes);
}
