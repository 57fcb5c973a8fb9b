//! How a worker tells the line whom it made ready.
ghost use Rattle.flow_floor.specs.Floors.{woken_of};
ghost use Rattle.flow_runner.specs.Lines.{IsPassAt, line_room, pops_of, pushes_of};
ghost use Rattle.flow_runner.specs.Serving.{names_of, KeepsPass, MayStandIn};
ghost use Rattle.flow_runner.specs.declared.tuned.TheConstants.{PUSHED_AFTER};
ghost use Rattle.std.specs.Prelude.{◌≡◌, ◌+◌, ◌<◌, ◌≤◌, ◌++◌, [], ◌∷◌, All, ◌⊎◌};

use crate::line::{Line, LinePass};
use crate::tuned::{PUSHED_AFTER, UNPUSHED_PLACES};
use arrayvec::ArrayVec;
use flow_component::Component;
use flow_floor::Worker;
use std::sync::Wait;

/// The processes that a worker made ready and hasn't pushed yet, in order, and how many turns of the process that it holds it made since it pushed any.
#[derive(Drop)]
pub(crate) struct Unpushed {
    /// Where there is no room for more, all are pushed.
    names: ArrayVec<u32, UNPUSHED_PLACES>,
    turns: u32,
    /// After how many turns they are pushed.
    after: u32,
    /// Whether some were pushed of whom `takes_pushed` hasn't told yet.
    pushed: bool,
}

impl Unpushed {
    pub(crate) fn none() -> Unpushed
        ensures { names_of result ≡ [] }
    {
        Unpushed {
            names: ArrayVec::new(),
            turns: 0,
            after: PUSHED_AFTER,
            pushed: false,
        }
    }

    /// From now on they are pushed after so many turns at most: where bursts are shorter, as soon as one is over.
    pub(crate) fn push_after(&mut self, turns: u32)
        ensures { names_of self.new ≡ names_of self.old }
    {
        self.after = turns;
    }

    /// Whether some were pushed since it was asked last.
    pub(crate) fn takes_pushed(&mut self) -> bool
        ensures { names_of self.new ≡ names_of self.old }
    {
        let pushed = self.pushed;
        self.pushed = false;
        pushed
    }
}

/// Pushes the process, again and again until it is in the line.
pub(crate) fn push_surely<R: Wait>(rt: &R, line: &Line, pass: &mut LinePass, process: u32)
    requires pass { IsPassAt line.now pass.old }
    requires range { process < line_room line.now }
    ensures pass { KeepsPass line.now pass.old pass.new }
    ensures pushed { pushes_of pass.new ≡ pushes_of pass.old ++ process ∷ [] }
    ensures popped { pops_of pass.new ≡ pops_of pass.old }
{
    for _ in rt.forever() {
        if line.push(rt, pass, process) {
            return;
        }
    }
    unreachable!()
}

/// Pushes those whom the worker's last call made ready.
pub(crate) fn push_woken<K: Component, R: Wait>(
    rt: &R,
    line: &Line,
    worker: &Worker<K>,
    pass: &mut LinePass,
)
    requires pass { IsPassAt line.now pass.old }
    requires below { All (λ q. q < line_room line.now) (woken_of worker.now) }
    ensures pass { KeepsPass line.now pass.old pass.new }
    ensures pushed { pushes_of pass.new ≡ pushes_of pass.old ++ woken_of worker.now }
    ensures popped { pops_of pass.new ≡ pops_of pass.old }
{
    let woken = worker.woken();
    for i in 0..woken.len() {
        push_surely(rt, line, pass, woken[i]);
    }
}

/// Pushes all those who weren't pushed yet.
pub(crate) fn push_all<R: Wait>(rt: &R, line: &Line, pass: &mut LinePass, unpushed: &mut Unpushed)
    requires pass { IsPassAt line.now pass.old }
    requires below { MayStandIn line.now (names_of unpushed.old) }
    ensures pass { KeepsPass line.now pass.old pass.new }
    ensures pushed { pushes_of pass.new ≡ pushes_of pass.old ++ names_of unpushed.old }
    ensures popped { pops_of pass.new ≡ pops_of pass.old }
    ensures none { names_of unpushed.new ≡ [] }
{
    let names = unpushed.names.as_slice();
    let some = !names.is_empty();
    for i in 0..names.len() {
        push_surely(rt, line, pass, names[i]);
    }
    unpushed.names.clear();
    unpushed.turns = 0;
    unpushed.pushed |= some;
}

/// Keeps those whom the worker's last call made ready, which made so many turns, behind those who weren't pushed yet. Where that is due, or there is no room
/// for them, all are pushed.
pub(crate) fn keep_woken<K: Component, R: Wait>(
    rt: &R,
    line: &Line,
    worker: &Worker<K>,
    pass: &mut LinePass,
    unpushed: &mut Unpushed,
    made: u32,
)
    requires pass { IsPassAt line.now pass.old }
    requires below { MayStandIn line.now (names_of unpushed.old) }
    requires woken { MayStandIn line.now (woken_of worker.now) }
    ensures pass { KeepsPass line.now pass.old pass.new }
    ensures pushed { pushes_of pass.new ++ names_of unpushed.new ≡ (pushes_of pass.old ++ names_of unpushed.old) ++ woken_of worker.now }
    ensures popped { pops_of pass.new ≡ pops_of pass.old }
    ensures below { MayStandIn line.now (names_of unpushed.new) }
    ensures due { PUSHED_AFTER ≤ unpushed.old.turns + made → names_of unpushed.new ≡ [] }
    ensures counts { (names_of unpushed.new ≡ []) ⊎ (unpushed.new.turns ≡ unpushed.old.turns + made) }
{
    unpushed.turns = unpushed.turns.saturating_add(made);
    if unpushed
        .names
        .try_extend_from_slice(worker.woken())
        .is_err()
    {
        push_all(rt, line, pass, unpushed);
        push_woken(rt, line, worker, pass);
        return;
    }
    if unpushed.turns >= unpushed.after.min(PUSHED_AFTER) {
        push_all(rt, line, pass, unpushed);
    }
}
