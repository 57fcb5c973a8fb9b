//! What one worker of a run does, which has lines of its own and of others.
ghost use Rattle.flow_floor.specs.Floors.{asked_of, HasReadZero, HasSameShare, IsIdleAt, process_count, turns_of};
ghost use Rattle.flow_runner.specs.Attempts.{HasSpent, Spends};
ghost use Rattle.flow_runner.specs.Posts.{posts_of, AreLinesFor, FollowsAll, IsPosted, PopOne, PushesHome};
ghost use Rattle.flow_runner.specs.Serving.{HasServed};
ghost use Rattle.std.specs.Prelude.{◌≡◌, ◌<◌, ◌≤◌, ◌++◌, ◌∷◌, [], IfSome, IsTrue};

use crate::lines::Lines;
use crate::rest::Rest;
use crate::server::Server;
use crate::stint::Stint;
use crate::watch::{Watch, pop_at};
use crate::work::tend;
use flow_component::{Component, Gate};
use flow_floor::Floor;
use std::sync::Wait;

/// The first process of its own line, or where that is empty one of another's, where helping pays.
fn find<K: Component, R: Wait>(
    rt: &R,
    floor: &Floor<K>,
    lines: &Lines,
    server: &mut Server<K>,
    slept: u64,
) -> Option<u32>
    requires lines { AreLinesFor floor.now (posts_of lines.now) }
    requires posted { IsPosted (posts_of lines.now) server.old }
    ensures posted { IsPosted (posts_of lines.now) server.new }
    ensures worker { server.new.worker ≡ server.old.worker }
    ensures home { server.new.watch.number ≡ server.old.watch.number }
    ensures popped { PopOne (posts_of lines.now) server.old.passes.items result server.new.passes.items }
    ensures range { IfSome result (λ q. q < process_count floor.now) }
{
    let _ = floor;
    let own = server.watch.number;
    match pop_at(rt, lines, own, &mut server.passes) {
        Some(process) => Some(process),
        None => server.watch.find(rt, lines, &mut server.passes, slept),
    }
}

/// Tends this process; those who are ready by that stand in the worker's own line. False: it was left, since another worker is at its sending end.
fn tend_one<K: Component, G: Gate, R: Wait>(
    rt: &R,
    floor: &Floor<K>,
    lines: &Lines,
    server: &mut Server<K>,
    process: u32,
    gate: &G,
    stint: &mut Stint,
) -> bool
    requires idle { IsIdleAt floor.now server.old.worker }
    requires lines { AreLinesFor floor.now (posts_of lines.now) }
    requires posted { IsPosted (posts_of lines.now) server.old }
    requires range { process < process_count floor.now }
    ensures idle { IsIdleAt floor.now server.new.worker }
    ensures posted { IsPosted (posts_of lines.now) server.new }
    ensures share { HasSameShare server.old.worker server.new.worker }
    ensures asked { asked_of server.new.worker ≡ asked_of server.old.worker ++ process ∷ [] }
    ensures pushes { PushesHome (posts_of lines.now) server.old server.new }
    ensures spends { Spends (turns_of server.old.worker) stint.old.left (turns_of server.new.worker) stint.new.left }
{
    server.watch.begins(lines, process);
    stint.tends(process);
    let own = server.watch.number;
    tend(
        rt,
        floor,
        &lines.posts[own].line,
        &mut server.worker,
        &mut server.passes[own],
        process as usize,
        gate,
        stint,
    )
}

/// Rests: for longer each time, or for as long as a trial asks for. It tells how many microseconds it slept.
fn rest_on<R: Wait>(rt: &R, lines: &Lines, watch: &Watch, rest: &mut Rest) -> u64 {
    match watch.nap() {
        Some(micros) => lines.bell.nap(rt, micros),
        None => rest.go_on(rt, &lines.bell),
    }
}

/// Tends the next process. Where there is none, or it had to be left, the worker rests; but true, and no rest: it read 0, so no process will ever have a
/// turn again. It tells how many microseconds it slept.
fn tend_next<K: Component, G: Gate, R: Wait>(
    rt: &R,
    floor: &Floor<K>,
    lines: &Lines,
    server: &mut Server<K>,
    gate: &G,
    rest: &mut Rest,
    slept: &mut u64,
    stint: &mut Stint,
) -> bool
    requires idle { IsIdleAt floor.now server.old.worker }
    requires lines { AreLinesFor floor.now (posts_of lines.now) }
    requires posted { IsPosted (posts_of lines.now) server.old }
    ensures idle { IsIdleAt floor.now server.new.worker }
    ensures posted { IsPosted (posts_of lines.now) server.new }
    ensures share { HasSameShare server.old.worker server.new.worker }
    ensures follows { FollowsAll (posts_of lines.now) server.old server.new }
    ensures spends { Spends (turns_of server.old.worker) stint.old.left (turns_of server.new.worker) stint.new.left }
    ensures zero { IsTrue result → HasReadZero server.new.worker }
{
    let was = *slept;
    *slept = 0;
    match find(rt, floor, lines, server, was) {
        Some(process) => {
            if tend_one(rt, floor, lines, server, process, gate, stint) {
                rest.end();
            } else {
                let _ = rest.go_on(rt, &lines.bell);
            }
            false
        }
        None => {
            if floor.live(&mut server.worker) == 0 {
                return true;
            }
            server.watch.rests(lines);
            *slept = rest_on(rt, lines, &server.watch, rest);
            false
        }
    }
}

/// Serves until no process will ever have a turn again.
fn attend_on<K: Component, G: Gate, R: Wait>(
    rt: &R,
    floor: &Floor<K>,
    lines: &Lines,
    server: &mut Server<K>,
    gate: &G,
)
    requires idle { IsIdleAt floor.now server.old.worker }
    requires lines { AreLinesFor floor.now (posts_of lines.now) }
    requires posted { IsPosted (posts_of lines.now) server.old }
    ensures idle { IsIdleAt floor.now server.new.worker }
    ensures share { HasSameShare server.old.worker server.new.worker }
    ensures follows { FollowsAll (posts_of lines.now) server.old server.new }
    ensures zero { HasReadZero server.new.worker }
{
    let mut rest = Rest::new();
    let mut slept = 0;
    let mut stint = Stint::among(u64::MAX, lines, server.watch.number);
    for _ in rt.forever() {
        stint.left = u64::MAX;
        if tend_next(
            rt, floor, lines, server, gate, &mut rest, &mut slept, &mut stint,
        ) {
            lines.bell.ring();
            return;
        }
    }
    unreachable!()
}

/// Serves until so many turns are made, or no process will ever have one again.
fn attend_for<K: Component, G: Gate, R: Wait>(
    rt: &R,
    floor: &Floor<K>,
    lines: &Lines,
    server: &mut Server<K>,
    gate: &G,
    budget: u64,
)
    requires idle { IsIdleAt floor.now server.old.worker }
    requires lines { AreLinesFor floor.now (posts_of lines.now) }
    requires posted { IsPosted (posts_of lines.now) server.old }
    ensures idle { IsIdleAt floor.now server.new.worker }
    ensures share { HasSameShare server.old.worker server.new.worker }
    ensures follows { FollowsAll (posts_of lines.now) server.old server.new }
    ensures spent { HasSpent budget server.old.worker server.new.worker }
{
    let mut rest = Rest::new();
    let mut slept = 0;
    let mut stint = Stint::among(budget, lines, server.watch.number);
    for _ in rt.forever() {
        if stint.left == 0 {
            server.watch.leaves(lines);
            return;
        }
        if tend_next(
            rt, floor, lines, server, gate, &mut rest, &mut slept, &mut stint,
        ) {
            lines.bell.ring();
            return;
        }
    }
    unreachable!()
}

/// Has the worker make turns of the processes of its line, and where it has none help others, until no process will ever have a turn again, or until it has
/// made so many turns as the budget says.
pub(crate) fn attend<K: Component + Send, G: Gate + Sync, R: Wait>(
    rt: &R,
    floor: &Floor<K>,
    lines: &Lines,
    server: &mut Server<K>,
    gate: &G,
    budget: Option<u64>,
)
    requires idle { IsIdleAt floor.now server.old.worker }
    requires lines { AreLinesFor floor.now (posts_of lines.now) }
    requires posted { IsPosted (posts_of lines.now) server.old }
    requires budget { IfSome budget (λ turns. 1 ≤ turns) }
    ensures idle { IsIdleAt floor.now server.new.worker }
    ensures share { HasSameShare server.old.worker server.new.worker }
    ensures follows { FollowsAll (posts_of lines.now) server.old server.new }
    ensures served { HasServed budget server.old.worker server.new.worker }
{
    server.watch.comes(lines);
    match budget {
        None => attend_on(rt, floor, lines, server, gate),
        Some(turns) => attend_for(rt, floor, lines, server, gate, turns),
    }
}
