//! How a worker rests that finds nothing to do.
ghost use Rattle.flow_runner.specs.declared.tuned.TheConstants.{SHORTEST_SLEEP, LONGEST_SLEEP};
ghost use Rattle.std.specs.Prelude.{◌≡◌, ◌*◌, ◌≤◌, ◌⊎◌, min};

use crate::tuned::{LONGEST_SLEEP, SHORTEST_SLEEP};
use crossbeam_utils::Backoff;
use std::sync::Wait;
use std::sync::atomic::{AtomicU64, Ordering};
use std::time::Duration;

/// Tells the workers of a run who sleep that it is over, or that there is something to do.
#[derive(Drop)]
pub(crate) struct Bell {
    rung: AtomicU64,
    /// How often somebody was called; and who sleeps, sleeps until that changes.
    calls: AtomicU64,
    /// How many sleep.
    sleepers: AtomicU64,
}

impl Bell {
    pub(crate) fn new() -> Bell {
        Bell {
            rung: AtomicU64::new(0),
            calls: AtomicU64::new(0),
            sleepers: AtomicU64::new(0),
        }
    }

    /// Ends each sleep, those that begin later too.
    pub(crate) fn ring(&self) {
        self.rung.store(1, Ordering::SeqCst);
        self.call_all();
    }

    pub(crate) fn somebody_sleeps(&self) -> bool {
        self.sleepers.load(Ordering::SeqCst) > 0
    }

    /// Ends a sleep, if there is one.
    pub(crate) fn call(&self) {
        if self.somebody_sleeps() {
            self.calls.fetch_add(1, Ordering::SeqCst);
            self.calls.wake_one();
        }
    }

    /// Ends each sleep that there is.
    pub(crate) fn call_all(&self) {
        self.calls.fetch_add(1, Ordering::SeqCst);
        self.calls.wake_all();
    }

    /// Sleeps so many microseconds at most; whether it was so many, and nobody was called meanwhile.
    fn sleep<R: Wait>(&self, rt: &R, micros: u64) -> bool {
        let calls = self.calls.load(Ordering::SeqCst);
        // Whoever rings does so before the call: no sleep begins behind both.
        if self.rung.load(Ordering::SeqCst) == 1 {
            return false;
        }
        self.sleepers.fetch_add(1, Ordering::SeqCst);
        let low = (calls & 0xffff_ffff) as u32;
        self.calls
            .park_timeout(rt, low, Duration::from_micros(micros));
        self.sleepers.fetch_sub(1, Ordering::SeqCst);
        self.calls.load(Ordering::SeqCst) == calls
    }

    /// Sleeps so many microseconds at most. How many it slept at least; 0 where that isn't known, since somebody was called.
    pub(crate) fn nap<R: Wait>(&self, rt: &R, micros: u64) -> u64 {
        if self.sleep(rt, micros) { micros } else { 0 }
    }
}

/// How one worker gives way to the others while it finds nothing: by idle loops, then to the system, and then in sleeps, each twice as long as the
/// one before.
#[derive(Drop)]
pub(crate) struct Rest {
    backoff: Backoff,
    next_sleep: u64,
    pub ghost shortest: { SHORTEST_SLEEP ≤ next_sleep },
    pub ghost longest: { next_sleep ≤ LONGEST_SLEEP },
}

impl Rest {
    pub(crate) fn new() -> Rest
        ensures { result.next_sleep ≡ SHORTEST_SLEEP }
    {
        Rest {
            backoff: Backoff::new(),
            next_sleep: SHORTEST_SLEEP,
        }
    }

    /// Something was found: whatever rest comes next begins from nothing.
    pub(crate) fn end(&mut self)
        ensures { self.new.next_sleep ≡ SHORTEST_SLEEP }
    {
        self.backoff.reset();
        self.next_sleep = SHORTEST_SLEEP;
    }

    /// Gives way once more, for longer than before. How many microseconds it slept at least; 0 where that isn't known, since somebody was called.
    pub(crate) fn go_on<R: Wait>(&mut self, rt: &R, bell: &Bell) -> u64
        ensures { (self.new.next_sleep ≡ self.old.next_sleep) ⊎ (self.new.next_sleep ≡ min (2 * self.old.next_sleep) LONGEST_SLEEP) }
    {
        if self.backoff.is_completed() {
            let micros = self.next_sleep;
            self.next_sleep = (2 * micros).min(LONGEST_SLEEP);
            bell.nap(rt, micros)
        } else {
            self.backoff.snooze();
            0
        }
    }
}
