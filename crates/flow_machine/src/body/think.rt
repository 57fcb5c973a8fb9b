//! The work of a process's component, ahead of its turn.
ghost use Rattle.std.specs.Prelude.{◌≡◌, None, OnOk, OnErr, IfOk, IfSome, option_and_then, slice_get};
ghost use Rattle.std.specs.Bool.{OnTrue, OnFalse};
ghost use Rattle.flow_packet.specs.Held.{held_of};
ghost use Rattle.flow_model.specs.Works.{judged};
ghost use Rattle.flow_model.specs.Stages.{IsThoughtStage};
ghost use Rattle.flow_model.specs.Events.{is_fresh};
ghost use Rattle.flow_model.specs.declared.Stage.TheVariants.{Told, Wishing};
ghost use Rattle.flow_machine.specs.Texts.{text_taken};
ghost use Rattle.flow_machine.specs.Thoughts.{next_text, Thinks, KeepsTurns, HasRoom, WorkedBody, SameBody, SendsHeld, PassesFirst, Prepares, IsSet, IsNotOver, IsUnset};

use super::Body;
use crate::answers::Thought;
use crate::inlet::{is_fresh, take_text};
use flow_component::{Answer, Component, Fail, Gate, Port, Stop, Wish};
use flow_limits::HANDS_LIMIT;
use flow_model::Stage;
use flow_packet::{Hands, Kind};
use std::alloc::AllocError;

/// It fails, since its hands are full.
#[cold]
#[inline(never)]
fn fail_by_hands(stage: &mut Stage)
    ensures { stage.new ≡ Stage.Failed Fail.HandsLimit }
{
    *stage = Stage::Failed(Fail::HandsLimit);
}

/// It fails, since it would close what isn't open.
#[cold]
#[inline(never)]
fn fail_unnested(stage: &mut Stage, port: Port)
    ensures { stage.new ≡ Stage.Failed (Fail.Unnested port) }
{
    *stage = Stage::Failed(Fail::Unnested(port));
}

/// Where a wish leaves a process: it can't send a close packet at depth 0, and can't receive while its hands are full. It answers the wish,
/// where that is granted and receives or sends, as nearly all do.
#[inline(always)]
fn judge(stage: &mut Stage, depths: &[u64], hands: &Hands, wish: Wish) -> Option<Wish>
    requires { SendsHeld hands.now.packets wish }
    ensures judged { stage.new ≡ judged depths.now (held_of hands.now) wish }
    ensures granted { IfSome result (λ granted. stage.new ≡ Wishing granted) }
{
    match wish {
        Wish::Receive(port) => {
            if hands.packets().len() < HANDS_LIMIT {
                *stage = Stage::Wishing(wish);
                Some(Wish::Receive(port))
            } else {
                fail_by_hands(stage);
                None
            }
        }
        Wish::Send(port, id) => {
            let depth = depths.get(port.0 as usize).copied().unwrap_or(0);
            if depth == 0 && hands.kind(id) == Kind::Close {
                fail_unnested(stage, port);
                None
            } else {
                *stage = Stage::Wishing(wish);
                Some(Wish::Send(port, id))
            }
        }
        _ => {
            *stage = Stage::Wishing(wish);
            None
        }
    }
}

impl<K: Component> Body<K> {
    /// Does the pending work, if any, and takes the room of the next turn. Without memory the same thought may be had again; an ended process finds what it needs. The gate is passed
    /// before each resume of the component.
    #[inline(always)]
    pub fn think<G: Gate>(&mut self, gate: &G) -> Thought
        requires { self.old.leaving ≡ None }
        ensures thinks { Thinks K.rules self.old result self.new }
        ensures keeps { KeepsTurns self.old self.new }
        ensures passed { PassesFirst (G.has_passed gate.now) self.old }
    {
        let stage = self.stage;
        let Stage::Told(answer) = stage else {
            return self.prepare();
        };
        gate.pass(self.hands.maker(), self.stamps.len() as u64);
        match self.work(answer) {
            Ok(Some(wish)) => self.ready(wish),
            Ok(None) => self.prepare(),
            Err(_) => Thought::NoMemory,
        }
    }

    /// Takes the room of the next turn, if there is to be one; if there is none, the component is told its end.
    #[inline(always)]
    pub(crate) fn prepare(&mut self) -> Thought
        requires whole { self.old.leaving ≡ None }
        requires thought { IsThoughtStage self.old.process.stage }
        ensures prepares { Prepares self.old result self.new }
        ensures keeps { KeepsTurns self.old self.new }
    {
        if !self.settle() {
            return Thought::NoMemory;
        }
        match self.stage {
            Stage::Failed(cause) => Thought::Failed(cause),
            _ => Thought::Wishing,
        }
    }

    /// The same. False: there was no memory. A process that has just wished to receive or to send goes another way.
    #[cold]
    #[inline(never)]
    fn settle(&mut self) -> bool
        requires whole { self.old.leaving ≡ None }
        requires thought { IsThoughtStage self.old.process.stage }
        ensures set { OnTrue result (SameBody self.old self.new × IsSet self.new) }
        ensures unset { OnFalse result (SameBody self.old self.new × IsNotOver self.new.process.stage × IsUnset self.new) }
        ensures keeps { KeepsTurns self.old self.new }
    {
        match self.stage {
            Stage::Failed(_) => {
                self.component.end();
                true
            }
            Stage::Ended => {
                self.component.end();
                true
            }
            Stage::Wishing(Wish::Receive(port)) => self.make_room(Some(port)).is_ok(),
            _ => self.make_room(None).is_ok(),
        }
    }

    /// Takes the room of the turn that this wish asks for.
    #[inline(always)]
    fn ready(&mut self, wish: Wish) -> Thought
        requires whole { self.old.leaving ≡ None }
        requires wishes { self.old.process.stage ≡ Wishing wish }
        ensures prepares { Prepares self.old result self.new }
        ensures keeps { KeepsTurns self.old self.new }
    {
        match wish {
            Wish::Receive(port) => match self.make_room(Some(port)) {
                Ok(()) => Thought::Wishing,
                Err(_) => Thought::NoMemory,
            },
            _ => match self.make_room(None) {
                Ok(()) => Thought::Wishing,
                Err(_) => Thought::NoMemory,
            },
        }
    }

    /// Does the pending work, and answers the wish that is granted, where that receives or sends. An error: there was no memory, and nothing has changed.
    #[inline(always)]
    fn work(&mut self, answer: Answer) -> Result<Option<Wish>, AllocError>
        requires whole { self.old.leaving ≡ None }
        requires told { self.old.process.stage ≡ Told answer }
        ensures worked { OnOk result (WorkedBody K.rules self.old self.new × IsThoughtStage self.new.process.stage) }
        ensures granted { IfOk result (λ granted. IfSome granted (λ wish. self.new.process.stage ≡ Wishing wish)) }
        ensures unchanged { OnErr result (SameBody self.old self.new × IsNotOver self.new.process.stage) }
        ensures keeps { KeepsTurns self.old self.new }
    {
        match self.component.resume(&mut self.hands, answer) {
            Ok(wish) => Ok(judge(&mut self.stage, &self.depths, &self.hands, wish)),
            Err(Stop::Fail(cause)) => {
                self.stage = Stage::Failed(cause);
                Ok(None)
            }
            Err(Stop::NoMemory) => Err(AllocError),
        }
    }

    /// Takes the room of the next turn, which receives at this port, or doesn't receive.
    #[inline(always)]
    fn make_room(&mut self, receives: Option<Port>) -> Result<(), AllocError>
        requires whole { self.old.leaving ≡ None }
        requires text { next_text self.old.process self.old.process.stage ≡ option_and_then (λ port. text_taken (is_fresh self.old.process port.0) (slice_get self.old.process.inputs port.0)) receives }
        ensures same { SameBody self.old self.new }
        ensures keeps { KeepsTurns self.old self.new }
        ensures room { OnOk result (HasRoom self.new) }
        ensures lacks { OnErr result (HasRoom self.new → ⊥) }
    {
        if self.copy.is_some() {
            self.copy = None;
        }
        self.hands.reserve(1)?;
        self.stamps.reserve(1)?;
        self.levels.reserve(1)?;
        if let Some(port) = receives {
            if is_fresh(&self.fresh, port) {
                take_text(&mut self.copy, &self.inlets, &self.fresh, port)?;
            }
        }
        Ok(())
    }
}
