//! How a worker without work of its own sees whom it may help.
ghost use Rattle.flow_runner.specs.Posts.{posts_of, ArePassesAt, AreRoomFor, PopOne, Watches};
ghost use Rattle.std.specs.Prelude.{◌≡◌, ◌<◌, ◌≤◌, ℕ, IfOk, IfSome, length};

use crate::judge::{Judge, Sight};
use crate::line::LinePass;
use crate::lines::{ABSENT, GONE, Lines, Post, THERE};
use crate::tuned::TRIAL_MICROS;
use std::alloc::{AllocError, Global};
use std::sync::Wait;

/// What one saw of a worker before a rest: its beat, how many turns it had made, and which process it tended.
#[derive(Clone, Copy)]
pub(crate) struct Seen {
    beat: u64,
    turns: u64,
    process: u64,
}

/// What a worker knows of the others.
#[derive(Drop)]
pub(crate) struct Watch {
    pub(crate) number: usize,
    /// What it saw of all before its last rest.
    pub(crate) seen: Vec<Seen>,
    judge: Judge,
    /// Its own beat.
    beat: u64,
}

/// The number behind this one, round and round.
fn behind(number: usize, count: usize) -> usize
    requires { number < count }
    ensures { result < count }
{
    if number + 1 < count { number + 1 } else { 0 }
}

/// This worker was at work all the time and made no turn: where it tends the same process still, that is slow.
fn slows(lines: &Lines, post: &Post, seen: Seen) {
    if post.process() != seen.process {
        return;
    }
    if let Some(pace) = lines.pace(seen.process) {
        pace.slows();
    }
}

/// The first process of this line, by this pass of it.
pub(crate) fn pop_at<R: Wait>(
    rt: &R,
    lines: &Lines,
    number: usize,
    passes: &mut Vec<LinePass>,
) -> Option<u32>
    requires number { number < length (posts_of lines.now) }
    requires passes { ArePassesAt (posts_of lines.now) passes.old.items }
    ensures passes { ArePassesAt (posts_of lines.now) passes.new.items }
    ensures popped { PopOne (posts_of lines.now) passes.old.items result passes.new.items }
    ensures range { (n : ℕ) → AreRoomFor n (posts_of lines.now) → IfSome result (λ q. q < n) }
{
    lines.posts[number].line.pop(rt, &mut passes[number])
}

impl Watch {
    pub(crate) fn new(alloc: Global, number: usize, workers: usize) -> Result<Watch, AllocError>
        ensures number { IfOk result (λ watch. watch.number ≡ number) }
        ensures seen { IfOk result (λ watch. length watch.seen.items ≡ workers) }
    {
        Ok(Watch {
            number,
            seen: vec![in alloc; Seen {
                beat: ABSENT,
                turns: 0,
                process: 0
            }; workers]?,
            judge: Judge::new(workers),
            beat: THERE,
        })
    }

    /// It serves from now on: only who helps takes from its line.
    pub(crate) fn comes(&self, lines: &Lines)
        requires { Watches (posts_of lines.now) self.now }
    {
        lines.posts[self.number].set_beat(self.beat);
    }

    /// It tends this process, which it took, and comes to work if it rested.
    #[inline(always)]
    pub(crate) fn begins(&mut self, lines: &Lines, process: u32)
        requires { Watches (posts_of lines.now) self.old }
        ensures watches { Watches (posts_of lines.now) self.new }
        ensures number { self.new.number ≡ self.old.number }
    {
        if self.seen.len() < 2 {
            return;
        }
        lines.posts[self.number].set_process(process);
        if self.beat & 1 == 0 {
            self.beat = self.beat.wrapping_add(1);
            lines.posts[self.number].set_beat(self.beat);
            lines.stops_looking(self.number as u64);
        }
    }

    /// It has nothing to do: it notes how far the others are.
    pub(crate) fn rests(&mut self, lines: &Lines)
        requires { Watches (posts_of lines.now) self.old }
        ensures watches { Watches (posts_of lines.now) self.new }
        ensures number { self.new.number ≡ self.old.number }
    {
        if self.beat & 1 == 1 {
            self.beat = self.beat.wrapping_add(1);
            lines.posts[self.number].set_beat(self.beat);
        }
        for worker in 0..self.seen.len() {
            let post = &lines.posts[worker];
            self.seen[worker] = Seen {
                beat: post.beat(),
                turns: post.turns(),
                process: post.process(),
            };
        }
    }

    /// It serves no more.
    pub(crate) fn leaves(&self, lines: &Lines)
        requires { Watches (posts_of lines.now) self.now }
    {
        lines.posts[self.number].set_beat(GONE);
    }

    /// What it sees of the others behind a sleep of so many microseconds. It tells them how long their bursts may be.
    fn sees(&self, lines: &Lines, slept: u64) -> Sight
        requires watches { Watches (posts_of lines.now) self.now }
        requires slept { 1 ≤ slept }
    {
        let mut sight = Sight::new(slept);
        for worker in 0..self.seen.len() {
            let post = &lines.posts[worker];
            let seen = self.seen[worker];
            let turns = post.turns().wrapping_sub(seen.turns);
            let at_work = seen.beat & 1 == 1 && seen.beat != GONE && post.beat() == seen.beat;
            let was = post.burst();
            let burst = sight.burst(turns, at_work, was);
            if burst != was as u64 {
                post.set_burst(burst);
            }
            if at_work && turns == 0 {
                slows(lines, post, seen);
            }
            sight.adds(turns, at_work);
        }
        sight
    }

    /// Behind a sleep of so many microseconds: the one who looks out judges whether others are helped.
    fn judges(&mut self, lines: &Lines, slept: u64)
        requires watches { Watches (posts_of lines.now) self.old }
        requires slept { 1 ≤ slept }
        ensures watches { Watches (posts_of lines.now) self.new }
        ensures number { self.new.number ≡ self.old.number }
    {
        if !lines.looks_out(self.number as u64) {
            self.judge.stands_aside();
            return;
        }
        let sight = self.sees(lines, slept);
        self.judge.judges(&sight, lines);
    }

    /// How long it sleeps next, where it tries whether help pays.
    pub(crate) fn nap(&self) -> Option<u64> {
        if self.judge.tries() {
            Some(TRIAL_MICROS)
        } else {
            None
        }
    }

    /// The first process of this line, if its worker doesn't serve, not yet or no more; or, where others may be helped, is at work.
    fn take_at<R: Wait>(
        &self,
        rt: &R,
        lines: &Lines,
        passes: &mut Vec<LinePass>,
        other: usize,
        may_help: bool,
    ) -> Option<u32>
        requires other { other < length (posts_of lines.now) }
        requires passes { ArePassesAt (posts_of lines.now) passes.old.items }
        ensures passes { ArePassesAt (posts_of lines.now) passes.new.items }
        ensures popped { PopOne (posts_of lines.now) passes.old.items result passes.new.items }
        ensures range { (n : ℕ) → AreRoomFor n (posts_of lines.now) → IfSome result (λ q. q < n) }
    {
        let beat = lines.posts[other].beat();
        let may_take = beat == ABSENT || beat == GONE || (may_help && beat & 1 == 1);
        if !may_take {
            return None;
        }
        pop_at(rt, lines, other, passes)
    }

    /// The first process of one of the lines of others from which it may take. Its bursts are as long then as they were there.
    fn take<R: Wait>(
        &self,
        rt: &R,
        lines: &Lines,
        passes: &mut Vec<LinePass>,
        may_help: bool,
    ) -> Option<u32>
        requires watches { Watches (posts_of lines.now) self.now }
        requires passes { ArePassesAt (posts_of lines.now) passes.old.items }
        ensures passes { ArePassesAt (posts_of lines.now) passes.new.items }
        ensures popped { PopOne (posts_of lines.now) passes.old.items result passes.new.items }
        ensures range { (n : ℕ) → AreRoomFor n (posts_of lines.now) → IfSome result (λ q. q < n) }
    {
        let workers = self.seen.len();
        let mut other = behind(self.number, workers);
        for _step in 1..workers {
            if let Some(process) = self.take_at(rt, lines, passes, other, may_help) {
                let burst = lines.posts[other].burst();
                lines.posts[self.number].set_burst(burst as u64);
                return Some(process);
            }
            other = behind(other, workers);
        }
        None
    }

    /// A process of another one's line, where that pays. It slept so many microseconds before.
    pub(crate) fn find<R: Wait>(
        &mut self,
        rt: &R,
        lines: &Lines,
        passes: &mut Vec<LinePass>,
        slept: u64,
    ) -> Option<u32>
        requires watches { Watches (posts_of lines.now) self.old }
        requires passes { ArePassesAt (posts_of lines.now) passes.old.items }
        ensures watches { Watches (posts_of lines.now) self.new }
        ensures number { self.new.number ≡ self.old.number }
        ensures passes { ArePassesAt (posts_of lines.now) passes.new.items }
        ensures popped { PopOne (posts_of lines.now) passes.old.items result passes.new.items }
        ensures range { (n : ℕ) → AreRoomFor n (posts_of lines.now) → IfSome result (λ q. q < n) }
    {
        if slept > 0 {
            self.judges(lines, slept);
        } else if self.judge.tries() {
            self.judge.was_cut_short(lines);
        }
        if self.judge.tries() {
            return None;
        }
        let may_help = lines.may_help();
        if slept == 0 && !may_help {
            return None;
        }
        let found = self.take(rt, lines, passes, may_help);
        if may_help && found.is_some() {
            lines.helped();
        }
        found
    }
}
