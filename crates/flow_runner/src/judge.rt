//! Whether workers without work of their own should help others.
//!
//! A packet that goes from one processor to another costs both more than a light turn of it. So where processes hang together and their turns are light,
//! the run is fastest where one worker makes all of them; where turns are long, the more workers the better. Between both nobody can say beforehand: it is
//! tried, and what counts is how many turns all workers make together over a sleep.
ghost use Rattle.std.specs.Prelude.{◌≤◌};

use crate::lines::Lines;
use crate::tuned::{
    BURST_LIMIT, BURST_MICROS, CUT_SLEEPS, FIRST_HELPS, HEAVY_NANOS, MOST_HELPS, PAYING_EIGHTHS,
    SHORTENED_BY, TRIED_HELPS, TRIED_NANOS,
};

/// What one saw of all workers over a sleep.
#[derive(Drop)]
pub(crate) struct Sight {
    slept: u64,
    /// How many turns all made.
    turns: u64,
    /// Whether one was at work all the time, one made few turns in it, and one no more than some. Of one that rested meanwhile nobody knows how long its
    /// turns are.
    at_work: bool,
    heavy: bool,
    middling: bool,
    pub ghost slept_some: { 1 ≤ slept },
}

impl Sight {
    pub(crate) fn new(slept: u64) -> Sight
        requires { 1 ≤ slept }
    {
        Sight {
            slept,
            turns: 0,
            at_work: false,
            heavy: false,
            middling: false,
        }
    }

    /// Adds a worker that made so many turns, and was at work all the time, or wasn't.
    pub(crate) fn adds(&mut self, turns: u64, at_work: bool) {
        self.turns = self.turns.saturating_add(turns);
        if at_work {
            let nanos = self.slept.saturating_mul(1_000);
            self.at_work = true;
            self.heavy |= turns.saturating_mul(HEAVY_NANOS) <= nanos;
            self.middling |= turns.saturating_mul(TRIED_NANOS) <= nanos;
        }
    }

    /// How many turns a burst of that worker should have, which has had so many. By one that rested meanwhile bursts get no shorter.
    pub(crate) fn burst(&self, turns: u64, at_work: bool, burst: u32) -> u64 {
        let least = if at_work {
            burst as u64 / SHORTENED_BY
        } else {
            burst as u64
        };
        (turns.saturating_mul(BURST_MICROS) / self.slept)
            .max(least)
            .max(1)
            .min(BURST_LIMIT as u64)
    }
}

/// How far a trial is. Each step of it is a sleep of one length, and each number that of the turns that all workers made over such a sleep.
#[derive(Clone, Copy)]
enum Trial {
    /// None is on.
    Off,
    /// Nobody is helped, and it is seen how many turns are made so.
    Alone,
    /// Help was called for; so many turns were made without it.
    Begins(u64),
    /// Help is there.
    Helped(u64),
    /// Help is over; so many turns were made with it.
    Ends(u64),
    /// Nobody is helped again, to see that it was the help and not the hour.
    AloneAgain(u64),
}

/// Whether help pays by which so many turns were made, and without which so many.
fn pays(helped: u64, alone: u64) -> bool {
    helped.saturating_mul(8) >= alone.saturating_mul(PAYING_EIGHTHS)
}

/// What the lookout makes of what it sees.
#[derive(Drop)]
pub(crate) struct Judge {
    /// Too few to try: one would have to help and to look at once.
    few: bool,
    /// Whether the last look behind a sleep saw heavy work.
    suspects: bool,
    /// How many may be taken when heavy work is seen again, or a trial has gone well.
    helps: u64,
    tried_helps: u64,
    trial: Trial,
    /// How many sleeps of the trial were cut short.
    cut: u32,
}

impl Judge {
    pub(crate) fn new(workers: usize) -> Judge {
        Judge {
            few: workers < 3,
            suspects: false,
            helps: FIRST_HELPS,
            tried_helps: TRIED_HELPS,
            trial: Trial::Off,
            cut: 0,
        }
    }

    /// Whether a trial is on. Who judges it sleeps as long as the trial asks for, and helps nobody.
    pub(crate) fn tries(&self) -> bool {
        !matches!(self.trial, Trial::Off)
    }

    /// Behind a sleep over which it saw this: how many processes may be taken from others from now on, or a step more of a trial.
    pub(crate) fn judges(&mut self, sight: &Sight, lines: &Lines) {
        match self.trial {
            Trial::Off => self.looks(sight, lines),
            Trial::Alone => {
                self.trial = Trial::Begins(sight.turns);
                lines.set_helps(TRIED_HELPS);
            }
            Trial::Begins(alone) => self.trial = Trial::Helped(alone),
            Trial::Helped(alone) => {
                lines.set_helps(0);
                if pays(sight.turns, alone) {
                    self.trial = Trial::Ends(sight.turns);
                } else {
                    self.fails(lines);
                }
            }
            Trial::Ends(helped) => self.trial = Trial::AloneAgain(helped),
            Trial::AloneAgain(helped) => {
                if pays(helped, sight.turns) {
                    self.succeeds(lines);
                } else {
                    self.fails(lines);
                }
            }
        }
    }

    /// Another one looks out: whatever trial was on is none of its any more.
    pub(crate) fn stands_aside(&mut self) {
        self.trial = Trial::Off;
    }

    /// A sleep of a trial was cut short, so it tells nothing.
    pub(crate) fn was_cut_short(&mut self, lines: &Lines) {
        self.cut = self.cut.saturating_add(1);
        if self.cut >= CUT_SLEEPS {
            self.fails(lines);
        }
    }

    /// No trial is on.
    fn looks(&mut self, sight: &Sight, lines: &Lines) {
        let helped = lines.may_help();
        if sight.heavy {
            if !helped {
                self.suspects(lines);
            }
            return;
        }
        if !sight.at_work {
            return;
        }
        self.suspects = false;
        self.helps = FIRST_HELPS;
        if !sight.middling {
            if helped {
                lines.set_helps(0);
            }
            return;
        }
        if !helped && !self.few && lines.trial_is_due() {
            self.trial = Trial::Alone;
            self.cut = 0;
        }
    }

    /// Heavy work was seen: where it is seen twice, others are helped.
    fn suspects(&mut self, lines: &Lines) {
        self.suspects = !self.suspects;
        if self.suspects {
            return;
        }
        lines.set_helps(self.helps);
        self.helps = self.helps.saturating_mul(2).min(MOST_HELPS);
    }

    /// The trial went well.
    fn succeeds(&mut self, lines: &Lines) {
        self.trial = Trial::Off;
        lines.trial_paid();
        lines.set_helps(self.tried_helps);
        self.tried_helps = self.tried_helps.saturating_mul(2).min(MOST_HELPS);
    }

    /// Nobody is helped.
    fn fails(&mut self, lines: &Lines) {
        self.trial = Trial::Off;
        lines.set_helps(0);
        lines.trial_failed();
        self.tried_helps = TRIED_HELPS;
    }
}
