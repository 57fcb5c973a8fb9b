//! How far a run is, told on the standard error while it goes on. No contract speaks of it, and it changes nothing of what comes of the run.
use flow_cli::Watch;
use flow_component::Gate;
use flow_limits::PROCESS_LIMIT;
use std::alloc::{AllocError, Global};
use std::sync::atomic::{AtomicU64, Ordering};
use std::time::{Clock, Instant};

/// The turns of a process are counted by blocks of so many, and the clock is looked at behind each: so this takes next to no time, and workers seldom meet at
/// the sum.
const BLOCK: u64 = 1024;

/// In which second of its run a run first tells how far it is that nobody asked about.
const PATIENCE: u64 = 2;

/// What stands in place of a line that is taken away: no line is longer.
const BLANK: &str = "\r                                        \r";

/// How it is told how far a run is.
#[derive(Clone, Copy, Debug, PartialEq, Eq)]
pub enum Telling {
    /// It isn't.
    Nothing,
    /// In a line each second, and in one at the end.
    Lines,
    /// In one line of a terminal, which is written anew each second, and taken away at the end. It begins in the second with this number.
    Rewritten { from: u64 },
}

impl Telling {
    /// How it is told where it is asked for, or isn't, on a standard error that is a terminal, or isn't.
    pub fn by(is_asked: bool, is_terminal: bool) -> Self {
        match (is_asked, is_terminal) {
            (false, false) => Telling::Nothing,
            (true, false) => Telling::Lines,
            (false, true) => Telling::Rewritten { from: PATIENCE },
            (true, true) => Telling::Rewritten { from: 1 },
        }
    }
}

/// The clock of a run, and the turns that are counted so far.
#[derive(Drop)]
pub struct Meter<'a, R: Eprint + Clock> {
    rt: &'a R,
    telling: Telling,
    /// Without a clock nothing is told.
    start: Option<Instant>,
    /// By process, how many blocks of its turns are counted; none where nothing is told.
    blocks: Vec<AtomicU64>,
    turns: AtomicU64,
    /// The second up to which it is told.
    told: AtomicU64,
}

impl<'a, R: Eprint + Clock> Meter<'a, R> {
    /// A meter at the beginning of a run.
    pub fn new(alloc: Global, rt: &'a R, telling: Telling) -> Result<Self, AllocError> {
        let mut blocks = Vec::new(alloc);
        if telling != Telling::Nothing {
            for _ in 0..PROCESS_LIMIT {
                blocks.push(AtomicU64::new(0))?;
            }
        }
        let before = match telling {
            Telling::Rewritten { from } => from.saturating_sub(1),
            _ => 0,
        };
        Ok(Meter {
            rt,
            telling,
            start: Instant::now(rt).ok(),
            blocks,
            turns: AtomicU64::new(0),
            told: AtomicU64::new(before),
        })
    }

    // In which second of its run the run is.
    fn second(&self) -> Option<u64> {
        let elapsed = self.start?.elapsed(self.rt).ok()?;
        Some(elapsed.as_secs())
    }

    // Counts the turns of a process up to this block. It is apart from the pass of nearly all turns.
    #[cold]
    #[inline(never)]
    fn count(&self, process: u32, block: u64) {
        let Some(counted) = self.blocks.get(process as usize) else {
            return;
        };
        // One worker at a time has the process.
        let before = counted.load(Ordering::SeqCst);
        if before < block {
            counted.store(block, Ordering::SeqCst);
            let more = (block - before).saturating_mul(BLOCK);
            self.turns.fetch_add(more, Ordering::SeqCst);
            self.look();
        }
    }

    // Tells how far the run is where another second is over. Of workers that look at once one tells it.
    fn look(&self) {
        let Some(second) = self.second() else {
            return;
        };
        let told = self.told.load(Ordering::SeqCst);
        if second <= told {
            return;
        }
        let taken = self
            .told
            .compare_exchange(told, second, Ordering::SeqCst, Ordering::SeqCst);
        if taken.is_ok() {
            self.tell(self.turns.load(Ordering::SeqCst), second);
        }
    }

    // Tells how far the run is. Where the standard error takes nothing, it isn't told.
    fn tell(&self, turns: u64, second: u64) {
        let _ = match self.telling {
            Telling::Nothing => Ok(()),
            Telling::Lines => eprint!(self.rt; "{turns} turns, {second} s\n"),
            Telling::Rewritten { from: _ } => eprint!(self.rt; "\r{turns} turns, {second} s"),
        };
    }

    /// Tells how many turns a run has made that is over, where that is told in lines, and it has made some.
    pub fn sum_up(&self, turns: u64) {
        if self.telling != Telling::Lines || turns == 0 {
            return;
        }
        if let Some(second) = self.second() {
            self.tell(turns, second);
        }
    }
}

impl<R: Eprint + Clock> Gate for Meter<'_, R> {
    // Between two passes of a process there are at most two turns of its: where no pass comes behind the one that fills a block, as behind one
    // that deactivates it, the next one is counted.
    #[inline(always)]
    fn pass(&self, process: u32, turns: u64) {
        if turns % BLOCK < 2 {
            self.count(process, turns / BLOCK);
        }
    }
}

impl<R: Eprint + Clock> Watch for Meter<'_, R> {
    fn end_turns(&self) {
        if let Telling::Rewritten { from } = self.telling {
            if self.told.load(Ordering::SeqCst) >= from {
                let _ = self.rt.eprint(BLANK);
            }
        }
    }
}
