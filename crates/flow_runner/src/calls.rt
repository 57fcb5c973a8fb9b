//! The calls of the ready line.
ghost use Rattle.flow_limits.specs.declared.TheConstants.{PROCESS_LIMIT, WORKER_LIMIT};
ghost use Rattle.flow_runner.specs.Fair.{times};
ghost use Rattle.flow_runner.specs.Lines.{IsPassAt, IsAlone, IsNewPass, AreAllPasses, pushes_of, pops_of, puts_of, takes_of, all_puts, all_takes, line_room, parts_of, KnowsTheSame, Leaves, LeaveInOrder, WasLast, WasFirst, WasFull, WasEmpty};
ghost use Rattle.std.specs.Prelude.{◌≡◌, ℕ, List, ◌+◌, ◌<◌, ◌≤◌, ◌++◌, ◌∷◌, [], All, IfOk, IsFalse, IsNone, IsTrue, MatchOption, length, sum_by, vec_capacity};

use crate::line::{Begin, CutPass, Line, LinePass, Puts, Size, Takes};
use crate::rest::Bell;
use crossbeam_queue::RuledArrayQueue;
use std::alloc::{AllocError, Global};
use std::marker::Brand;
use std::sync::Wait;

impl Line {
    /// Cuts the first pass into one for each worker. The first one comes last.
    fn cut(&self, mut passes: Vec<LinePass>, mut first: LinePass, workers: u32) -> Vec<LinePass>
        requires workers { (1 ≤ workers) × (workers ≤ WORKER_LIMIT) }
        requires room { (passes.items ≡ []) × (workers ≤ vec_capacity passes) }
        requires first { IsPassAt self.now first × IsNewPass first × IsAlone first }
        ensures all { AreAllPasses self.now result.items }
        ensures new { All IsNewPass result.items }
        ensures count { length result.items ≡ workers }
    {
        for _i in 1..workers {
            let pass = self.queue.another::<CutPass>(&mut first.pass);
            passes.push_reserved(LinePass { pass });
        }
        passes.push_reserved(first);
        passes
    }

    /// One pass more, cut off this one, which has a part to spare.
    pub(crate) fn share(&self, first: &mut LinePass) -> LinePass
        requires first { IsPassAt self.now first.old }
        requires parts { 2 ≤ parts_of first.old }
        ensures first { IsPassAt self.now first.new × (parts_of first.new + 1 ≡ parts_of first.old) }
        ensures pass { IsPassAt self.now result }
    {
        let pass = self.queue.another::<CutPass>(&mut first.pass);
        LinePass { pass }
    }

    fn open_as<S: Size>(
        alloc: Global,
        processes: u32,
        workers: u32,
    ) -> Result<(Line, Vec<LinePass>), AllocError>
        requires size { S.most ≡ processes }
        requires processes { (1 ≤ processes) × (processes ≤ PROCESS_LIMIT) }
        requires workers { (1 ≤ workers) × (workers ≤ WORKER_LIMIT) }
        ensures room { IfOk result (λ r. line_room r.0 ≡ processes) }
        ensures all { IfOk result (λ r. AreAllPasses r.0 r.1.items) }
        ensures new { IfOk result (λ r. All IsNewPass r.1.items) }
        ensures count { IfOk result (λ r. length r.1.items ≡ workers) }
    {
        let left = Vec::with_capacity(alloc, processes as usize)?;
        let passes = Vec::with_capacity(alloc, workers as usize)?;
        let (queue, mut pass) = RuledArrayQueue::ruled(alloc, processes as usize)?;
        let _ = queue.another::<Begin<S>>(&mut pass);
        let line = Line {
            queue,
            processes,
            bell: Bell::new(),
            left,
        };
        let passes = line.cut(passes, LinePass { pass }, workers);
        Ok((line, passes))
    }

    /// An empty line for so many processes, and a pass for each worker.
    pub fn open(
        alloc: Global,
        processes: u32,
        workers: u32,
    ) -> Result<(Line, Vec<LinePass>), AllocError>
        requires processes { (1 ≤ processes) × (processes ≤ PROCESS_LIMIT) }
        requires workers { (1 ≤ workers) × (workers ≤ WORKER_LIMIT) }
        ensures room { IfOk result (λ r. line_room r.0 ≡ processes) }
        ensures all { IfOk result (λ r. AreAllPasses r.0 r.1.items) }
        ensures new { IfOk result (λ r. All IsNewPass r.1.items) }
        ensures count { IfOk result (λ r. length r.1.items ≡ workers) }
    {
        Line::open_as::<Brand>(alloc, processes, workers)
    }

    /// The number becomes the last: its place is how many all passes had pushed before. False: nothing changed. To the only pass that says that the line is
    /// full; to one of several it says nothing of the line, since the others may have done whatever makes it so.
    pub fn push<R: Wait>(&self, rt: &R, pass: &mut LinePass, process: u32) -> bool
        requires pass { IsPassAt self.now pass.old }
        requires range { process < line_room self.now }
        ensures pass { IsPassAt self.now pass.new × (parts_of pass.new ≡ parts_of pass.old) }
        ensures pushed { IsTrue result → (pushes_of pass.new ≡ pushes_of pass.old ++ process ∷ []) × (pops_of pass.new ≡ pops_of pass.old) × WasLast self.now process pass.old pass.new }
        ensures full { IsFalse result → (pushes_of pass.new ≡ pushes_of pass.old) × (pops_of pass.new ≡ pops_of pass.old) × WasFull self.now pass.old }
        ensures kept { IsFalse result → KnowsTheSame pass.old pass.new }
        ensures alone { IsAlone pass.old → (items : List ℕ) × Leaves pass.old items × (IsFalse result → length items ≡ line_room self.now) × (IsTrue result → length items < line_room self.now) }
    {
        match self.queue.push_as::<Puts, R>(rt, &mut pass.pass, process) {
            Ok(()) => true,
            Err(_) => false,
        }
    }

    /// The first number, which leaves the line: its place is how many all passes had popped before, and whoever pushed it did so at that same place. `None`:
    /// nothing changed. To the only pass that says that the line is empty; to one of several it says nothing of the line, as a push that was refused.
    pub fn pop<R: Wait>(&self, rt: &R, pass: &mut LinePass) -> Option<u32>
        requires pass { IsPassAt self.now pass.old }
        ensures pass { IsPassAt self.now pass.new × (parts_of pass.new ≡ parts_of pass.old) }
        ensures popped { MatchOption result ((pushes_of pass.new ≡ pushes_of pass.old) × (pops_of pass.new ≡ pops_of pass.old) × WasEmpty self.now pass.old) (λ q. (q < line_room self.now) × (pushes_of pass.new ≡ pushes_of pass.old) × (pops_of pass.new ≡ pops_of pass.old ++ q ∷ []) × WasFirst self.now q pass.old pass.new) }
        ensures kept { IsNone result → KnowsTheSame pass.old pass.new }
        ensures alone { IsAlone pass.old → MatchOption result (Leaves pass.old []) (λ q. (items : List ℕ) × Leaves pass.old (q ∷ items)) }
    {
        self.queue.pop_as::<Takes, R>(rt, &mut pass.pass)
    }

    /// One pass takes in all others.
    fn gather(&self, mut first: LinePass, mut passes: Vec<LinePass>) -> LinePass
        requires all { AreAllPasses self.now (passes.items ++ first ∷ []) }
        ensures pass { IsPassAt self.now result × IsAlone result }
        ensures put { puts_of result ≡ all_puts (passes.items ++ first ∷ []) }
        ensures taken { takes_of result ≡ all_takes (passes.items ++ first ∷ []) }
    {
        while let Some(LinePass { pass }) = passes.pop() {
            self.queue.absorb::<CutPass>(&mut first.pass, pass);
        }
        first
    }

    /// Pops until the line is empty. The pass is the only one.
    fn drain<R: Wait>(self, rt: &R, mut only: LinePass) -> Vec<u32>
        requires pass { IsPassAt self only × IsAlone only }
        ensures { LeaveInOrder (only ∷ []) result.items }
    {
        let Line {
            queue,
            processes: _,
            bell: _,
            mut left,
        } = self;
        queue.learn_as::<Takes>(&mut only.pass);
        for _ in rt.forever() {
            match queue.pop_as::<Takes, R>(rt, &mut only.pass) {
                Some(process) => left.push_reserved(process),
                None => return left,
            }
        }
        unreachable!()
    }

    /// Ends the line, and gives what is left in it. What all passes pushed, in the order of the places, is what they popped, in that order too, and behind it
    /// what is left: the first that was pushed was the first that was popped, and so on, whoever did either.
    pub fn close<R: Wait>(self, rt: &R, mut passes: Vec<LinePass>) -> Vec<u32>
        requires all { AreAllPasses self passes.items }
        ensures each { (q : ℕ) → sum_by (λ p. times q (pushes_of p)) passes.items ≡ sum_by (λ p. times q (pops_of p)) passes.items + times q result.items }
        ensures order { LeaveInOrder passes.items result.items }
    {
        let Some(first) = passes.pop() else {
            unreachable!()
        };
        let only = self.gather(first, passes);
        self.drain(rt, only)
    }
}
