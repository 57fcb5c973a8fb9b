//! The lines of a run: one for each worker.
ghost use Rattle.std.specs.Prelude.{◌≡◌, ◌≤◌};

use crate::line::Line;
use crate::paces::Pace;
use crate::rest::Bell;
use crate::tuned::{BEFORE_TRIALS, BURST_LIMIT, FIRST_PAUSE, LONGEST_PAUSE};
use crossbeam_utils::CachePadded;
use std::sync::atomic::{AtomicU64, Ordering};

/// The beat of a worker that doesn't serve yet: perhaps its thread can't be started.
pub(crate) const ABSENT: u64 = 0;

/// The beat of a worker that serves, and wasn't at work yet.
pub(crate) const THERE: u64 = 2;

/// The beat of a worker that serves no more.
pub(crate) const GONE: u64 = u64::MAX;

/// What a worker tells those who rest, and what they tell it.
#[derive(Drop)]
pub(crate) struct Told {
    beat: AtomicU64,
    turns: AtomicU64,
    burst: AtomicU64,
    process: AtomicU64,
}

impl Told {
    fn new() -> Told {
        Told {
            beat: AtomicU64::new(ABSENT),
            turns: AtomicU64::new(0),
            burst: AtomicU64::new(1),
            process: AtomicU64::new(0),
        }
    }
}

/// A worker's line, and what the worker tells of itself: its *beat* is counted up whenever it comes to work and whenever it rests, and is odd while it is at
/// work.
#[derive(Drop)]
pub(crate) struct Post {
    pub(crate) line: Line,
    told: CachePadded<Told>,
}

impl Post {
    pub(crate) fn new(line: Line) -> Post
        ensures { result.line ≡ line }
    {
        Post {
            line,
            told: CachePadded::new(Told::new()),
        }
    }

    pub(crate) fn beat(&self) -> u64 {
        self.told.beat.load(Ordering::SeqCst)
    }

    pub(crate) fn set_beat(&self, beat: u64) {
        self.told.beat.store(beat, Ordering::SeqCst);
    }

    /// How many turns the worker made.
    pub(crate) fn turns(&self) -> u64 {
        self.told.turns.load(Ordering::SeqCst)
    }

    pub(crate) fn set_turns(&self, turns: u64) {
        self.told.turns.store(turns, Ordering::SeqCst);
    }

    /// How many turns its bursts have at most: one at first.
    pub(crate) fn burst(&self) -> u32
        ensures { 1 ≤ result }
    {
        let burst = self.told.burst.load(Ordering::SeqCst);
        burst.max(1).min(BURST_LIMIT as u64) as u32
    }

    pub(crate) fn set_burst(&self, turns: u64) {
        self.told.burst.store(turns, Ordering::SeqCst);
    }

    /// The process that the worker tended last.
    pub(crate) fn process(&self) -> u64 {
        self.told.process.load(Ordering::SeqCst)
    }

    pub(crate) fn set_process(&self, process: u32) {
        self.told.process.store(process as u64, Ordering::SeqCst);
    }
}

/// What all workers have in common beside their lines.
#[derive(Drop)]
pub(crate) struct Common {
    /// How many processes may still be taken from the lines of others.
    helps: AtomicU64,
    /// The number of the one who judges whether to help, and one more; or 0.
    lookout: AtomicU64,
    /// For how many sleeps more nothing is tried, and for how many after the next trial that fails.
    waits: AtomicU64,
    pause: AtomicU64,
}

/// The posts of all workers.
#[derive(Drop)]
pub(crate) struct Lines {
    pub(crate) posts: Vec<Post>,
    /// Those of the processes, in the order of their numbers.
    paces: Vec<Pace>,
    common: CachePadded<Common>,
    /// Ends the sleeps of those who found nothing.
    pub(crate) bell: Bell,
}

impl Lines {
    pub(crate) fn new(posts: Vec<Post>, paces: Vec<Pace>) -> Lines
        ensures { result.posts ≡ posts }
    {
        Lines {
            posts,
            paces,
            common: CachePadded::new(Common {
                helps: AtomicU64::new(0),
                lookout: AtomicU64::new(0),
                waits: AtomicU64::new(BEFORE_TRIALS),
                pause: AtomicU64::new(FIRST_PAUSE),
            }),
            bell: Bell::new(),
        }
    }

    /// The pace of this process.
    pub(crate) fn pace(&self, process: u64) -> Option<&Pace> {
        self.paces.get(process as usize)
    }

    pub(crate) fn may_help(&self) -> bool {
        let left = self.common.helps.load(Ordering::SeqCst);
        // One more may have been taken than there were.
        left > 0 && left <= u64::MAX / 2
    }

    pub(crate) fn helped(&self) {
        self.common.helps.fetch_sub(1, Ordering::SeqCst);
    }

    /// So many processes may be taken from others; where there are any, all who rest are called.
    pub(crate) fn set_helps(&self, helps: u64) {
        self.common.helps.store(helps, Ordering::SeqCst);
        if helps > 0 {
            self.bell.call_all();
        }
    }

    /// Calls one who rests, where others may be helped.
    pub(crate) fn call(&self) {
        if self.may_help() {
            self.bell.call();
        }
    }

    /// Whether whether help pays may be tried again; if not, it is one sleep nearer.
    pub(crate) fn trial_is_due(&self) -> bool {
        let waits = self.common.waits.load(Ordering::SeqCst);
        self.common
            .waits
            .store(waits.saturating_sub(1), Ordering::SeqCst);
        waits == 0
    }

    /// Help didn't pay: the next trial waits for twice as long as this one did.
    pub(crate) fn trial_failed(&self) {
        let pause = self.common.pause.load(Ordering::SeqCst);
        let next = pause.saturating_mul(2).min(LONGEST_PAUSE);
        self.common.waits.store(pause, Ordering::SeqCst);
        self.common.pause.store(next, Ordering::SeqCst);
    }

    /// Help pays: once it is over it is tried anew.
    pub(crate) fn trial_paid(&self) {
        self.common.waits.store(0, Ordering::SeqCst);
        self.common.pause.store(FIRST_PAUSE, Ordering::SeqCst);
    }

    /// Whether this worker is the lookout, which it becomes where nobody is.
    pub(crate) fn looks_out(&self, number: u64) -> bool {
        let lookout = self.common.lookout.load(Ordering::SeqCst);
        if lookout != 0 {
            return lookout == number.wrapping_add(1);
        }
        self.common
            .lookout
            .compare_exchange(
                0,
                number.wrapping_add(1),
                Ordering::SeqCst,
                Ordering::SeqCst,
            )
            .is_ok()
    }

    /// This worker, which has work, is no lookout.
    pub(crate) fn stops_looking(&self, number: u64) {
        if self.common.lookout.load(Ordering::SeqCst) == number.wrapping_add(1) {
            self.common.lookout.store(0, Ordering::SeqCst);
        }
    }
}
