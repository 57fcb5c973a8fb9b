//! The ready line: the numbers of the processes that became ready, in the order in which they did.
ghost use Rattle.crossbeam_queue.specs.Passes.{ruled_capacity};
ghost use Rattle.std.specs.Prelude.{◌≡◌, ◌≤◌, [], vec_capacity};

use crate::rest::Bell;
use crossbeam_queue::protocol::{Join, Lesson, Outcome, Protocol, Split};
use crossbeam_queue::{Pass, RuledArrayQueue};
use std::collections::LinkedList;
use std::marker::{Brand, PhantomData};

/// What a pass knows: of its line how many processes there are, its parts of the right to know the whole, of which all passes together have
/// `WORKER_LIMIT`, and what it pushed and popped, each with its place among what all passes pushed, and popped. No value of it is made.
pub struct Hand {
    pub most: u64,
    pub parts: u64,
    pub put: LinkedList<(u64, u32)>,
    pub taken: LinkedList<(u64, u32)>,
}

/// The rule of the line.
pub struct Fairly;

impl Protocol<u32, Hand> for Fairly {
    ghost use Rattle.std.specs.Prelude.{[]};
    ghost use Rattle.flow_limits.specs.declared.TheConstants.{WORKER_LIMIT};
    ghost use Rattle.flow_runner.specs.Fair.{IsFair, hand};

    ghost holds = { IsFair };

    ghost first = { hand 0 WORKER_LIMIT [] [] };
}

/// How many processes a line is for. Each call picks it.
pub trait Size {
    ghost use Rattle.std.specs.Prelude.{ℕ};

    ghost most: { ℕ };
}

impl Size for Brand {
    ghost most = { 0 };
}

/// How the first pass learns for how many processes the line is.
pub(crate) struct Begin<S: Size> {
    size: PhantomData<S>,
}

impl<S: Size> Split<Hand> for Begin<S> {
    ghost use Rattle.std.specs.Prelude.{[]};
    ghost use Rattle.flow_runner.specs.Fair.{hand};

    ghost left = { λ v. hand S.most v.parts v.put v.taken };

    ghost right = { λ _. hand 0 0 [] [] };
}

/// How a pass is cut in two, and how two are made one.
pub(crate) struct CutPass;

impl Split<Hand> for CutPass {
    ghost use Rattle.std.specs.Prelude.{◌-◌, []};
    ghost use Rattle.flow_runner.specs.Fair.{hand};

    ghost left = { λ v. hand v.most (v.parts - 1) v.put v.taken };

    ghost right = { λ v. hand v.most 1 [] [] };
}

impl Join<Hand> for CutPass {
    ghost use Rattle.std.specs.Prelude.{◌+◌, []};
    ghost use Rattle.flow_floor.specs.Made.{merge};
    ghost use Rattle.flow_runner.specs.Fair.{hand};

    ghost both = { λ v w. hand v.most (v.parts + w.parts) (merge w.put v.put) (merge w.taken v.taken) };

    ghost spent = { hand 0 0 [] [] };
}

pub(crate) struct Puts;

impl Outcome<u32, Hand> for Puts {
    ghost use Rattle.flow_runner.specs.Fair.{Put};

    ghost then = { Put };
}

impl Lesson<u32, Hand> for Puts {
    ghost use Rattle.flow_runner.specs.Fair.{WasWith};

    ghost fact = { WasWith };
}

pub(crate) struct Takes;

impl Outcome<u32, Hand> for Takes {
    ghost use Rattle.flow_runner.specs.Fair.{Taken};

    ghost then = { Taken };
}

impl Lesson<u32, Hand> for Takes {
    ghost use Rattle.flow_runner.specs.Fair.{WasWith};

    ghost fact = { WasWith };
}

/// What one worker knows of a line: what it pushed and popped there. It has no bytes.
#[derive(Drop)]
pub struct LinePass {
    pub(crate) pass: Pass<u32, Hand>,
}

/// The numbers of ready processes, first in first out, which workers share. It has room for each process once.
#[derive(Drop)]
pub struct Line {
    pub(crate) queue: RuledArrayQueue<u32, Hand, Fairly>,
    pub(crate) processes: u32,
    /// Ends the sleeps of those who found it empty.
    pub(crate) bell: Bell,
    /// Room for what is left at the end.
    pub(crate) left: Vec<u32>,
    pub ghost sized: { ruled_capacity queue ≡ processes },
    pub ghost empty: { left.items ≡ [] },
    pub ghost room: { processes ≤ vec_capacity left },
}
