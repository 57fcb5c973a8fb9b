//! How many turns a burst of each process may have.
//!
//! Nobody hears of a burst before it is over, and a component may take long for one packet: it may even wait for what another one does with the packet that
//! it sent. So each process begins with whole turns, of which others hear before it thinks again, and its bursts get longer as it is seen to be quick. A
//! process has one pace, whoever makes its turns: it goes from worker to worker, and a worker has quick ones and slow ones to tend.
ghost use Rattle.std.specs.Prelude.{◌≤◌};

use crate::tuned::{BURST_LIMIT, BURSTS_OF_A_LENGTH, TURNS_AFTER_A_SLOW_ONE};
use std::sync::atomic::{AtomicU64, Ordering};

/// How many turns a burst of one process may have.
#[derive(Drop)]
pub(crate) struct Pace {
    burst: AtomicU64,
    /// After how many more bursts of that length they get longer.
    left: AtomicU64,
}

impl Pace {
    pub(crate) fn new() -> Pace {
        Pace {
            burst: AtomicU64::new(1),
            left: AtomicU64::new(BURSTS_OF_A_LENGTH as u64),
        }
    }

    pub(crate) fn burst(&self) -> u32
        ensures { 1 ≤ result }
    {
        let burst = self.burst.load(Ordering::SeqCst);
        burst.max(1).min(BURST_LIMIT as u64) as u32
    }

    /// A burst of so many turns was made. After enough of them that were as long as they might be, they may be twice as long.
    pub(crate) fn made(&self, count: u32) {
        let burst = self.burst();
        if count < burst || burst == BURST_LIMIT {
            return;
        }
        let left = self.left.load(Ordering::SeqCst);
        if left > 1 {
            self.left.store(left - 1, Ordering::SeqCst);
            return;
        }
        self.left.store(BURSTS_OF_A_LENGTH as u64, Ordering::SeqCst);
        self.burst.store(burst as u64 * 2, Ordering::SeqCst);
    }

    /// No turn of it was made over a whole sleep, though it was tended: it makes whole turns again.
    pub(crate) fn slows(&self) {
        self.left.store(TURNS_AFTER_A_SLOW_ONE, Ordering::SeqCst);
        self.burst.store(1, Ordering::SeqCst);
    }
}
