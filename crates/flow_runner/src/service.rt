//! What one worker does.
ghost use Rattle.flow_floor.specs.Floors.{HasReadZero, HasSameShare, IsIdleAt, process_count, turns_of};
ghost use Rattle.flow_runner.specs.Attempts.{HasSpent, Spends};
ghost use Rattle.flow_runner.specs.Lines.{IsPassAt};
ghost use Rattle.flow_runner.specs.Serving.{Follows, HasServed, IsLineFor};
ghost use Rattle.std.specs.Prelude.{◌≡◌, ◌≤◌, IfSome, IsTrue};

use crate::line::{Line, LinePass};
use crate::rest::Rest;
use crate::stint::Stint;
use crate::work::tend;
use flow_component::{Component, Gate};
use flow_floor::{Floor, Worker};
use std::sync::Wait;

/// Tends the first process of the line. Where there is none, or it had to be left, the worker rests; but true, and no rest: it read 0, so no process will
/// ever have a turn again.
fn tend_next<K: Component, G: Gate, R: Wait>(
    rt: &R,
    floor: &Floor<K>,
    line: &Line,
    worker: &mut Worker<K>,
    pass: &mut LinePass,
    gate: &G,
    rest: &mut Rest,
    stint: &mut Stint,
) -> bool
    requires idle { IsIdleAt floor.now worker.old }
    requires line { IsLineFor floor.now line.now }
    requires pass { IsPassAt line.now pass.old }
    ensures idle { IsIdleAt floor.now worker.new }
    ensures share { HasSameShare worker.old worker.new }
    ensures spends { Spends (turns_of worker.old) stint.old.left (turns_of worker.new) stint.new.left }
    ensures follows { Follows line.now worker.old pass.old worker.new pass.new }
    ensures zero { IsTrue result → HasReadZero worker.new }
{
    match line.pop(rt, pass) {
        Some(process) => {
            if tend(rt, floor, line, worker, pass, process as usize, gate, stint) {
                rest.end();
            } else {
                let _ = rest.go_on(rt, &line.bell);
            }
            false
        }
        None => {
            if floor.live(worker) == 0 {
                return true;
            }
            let _ = rest.go_on(rt, &line.bell);
            false
        }
    }
}

/// Serves until no process will ever have a turn again.
fn serve_on<K: Component, G: Gate, R: Wait>(
    rt: &R,
    floor: &Floor<K>,
    line: &Line,
    worker: &mut Worker<K>,
    pass: &mut LinePass,
    gate: &G,
)
    requires idle { IsIdleAt floor.now worker.old }
    requires line { IsLineFor floor.now line.now }
    requires pass { IsPassAt line.now pass.old }
    ensures idle { IsIdleAt floor.now worker.new }
    ensures share { HasSameShare worker.old worker.new }
    ensures follows { Follows line.now worker.old pass.old worker.new pass.new }
    ensures zero { HasReadZero worker.new }
{
    let mut rest = Rest::new();
    for _ in rt.forever() {
        let mut stint = Stint::alone(u64::MAX);
        if tend_next(rt, floor, line, worker, pass, gate, &mut rest, &mut stint) {
            line.bell.ring();
            return;
        }
    }
    unreachable!()
}

/// Serves until so many turns are made, or no process will ever have one again.
fn serve_for<K: Component, G: Gate, R: Wait>(
    rt: &R,
    floor: &Floor<K>,
    line: &Line,
    worker: &mut Worker<K>,
    pass: &mut LinePass,
    gate: &G,
    budget: u64,
)
    requires idle { IsIdleAt floor.now worker.old }
    requires line { IsLineFor floor.now line.now }
    requires pass { IsPassAt line.now pass.old }
    ensures idle { IsIdleAt floor.now worker.new }
    ensures share { HasSameShare worker.old worker.new }
    ensures follows { Follows line.now worker.old pass.old worker.new pass.new }
    ensures spent { HasSpent budget worker.old worker.new }
{
    let mut rest = Rest::new();
    let mut stint = Stint::alone(budget);
    for _ in rt.forever() {
        if stint.left == 0 {
            return;
        }
        if tend_next(rt, floor, line, worker, pass, gate, &mut rest, &mut stint) {
            line.bell.ring();
            return;
        }
    }
    unreachable!()
}

/// Has the worker take processes from the line, make their turns, and push those who become ready by that; until no process will ever have a turn again,
/// or until it has made so many turns as the budget says. What it had taken is let go then, and whoever is ready is in the line.
pub fn serve<K: Component + Send, G: Gate + Sync, R: Wait>(
    rt: &R,
    floor: &Floor<K>,
    line: &Line,
    worker: &mut Worker<K>,
    pass: &mut LinePass,
    gate: &G,
    budget: Option<u64>,
)
    requires idle { IsIdleAt floor.now worker.old }
    requires line { IsLineFor floor.now line.now }
    requires pass { IsPassAt line.now pass.old }
    requires budget { IfSome budget (λ turns. 1 ≤ turns) }
    ensures idle { IsIdleAt floor.now worker.new }
    ensures share { HasSameShare worker.old worker.new }
    ensures follows { Follows line.now worker.old pass.old worker.new pass.new }
    ensures served { HasServed budget worker.old worker.new }
{
    match budget {
        None => serve_on(rt, floor, line, worker, pass, gate),
        Some(turns) => serve_for(rt, floor, line, worker, pass, gate, turns),
    }
}
