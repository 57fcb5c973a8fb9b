//! A process of a network that runs.
ghost use Rattle.std.specs.Prelude.{◌≡◌, ℕ, ◌+◌, ◌-◌, ◌^◌, ◌<◌, ◌≤◌, ◌↔◌, ◌⊎◌, [], ◌∷◌, ◌++◌, length, IsTrue, IfOk, IfSome, None, Some, slice_get};
ghost use Rattle.flow_component.specs.declared.Wish.TheVariants.{Receive, Send};
ghost use Rattle.flow_model.specs.Order.{connection_of};
ghost use Rattle.flow_model.specs.Events.{is_connected};
ghost use Rattle.std.specs.List.{list_any};
ghost use Rattle.flow_packet.specs.Tree.{id_of, kind_of};
ghost use Rattle.flow_packet.specs.Held.{held_of, without_packet};
ghost use Rattle.flow_packet.specs.Hands.{packet_at};
ghost use Rattle.flow_model.specs.Stages.{IsThoughtStage};
ghost use Rattle.flow_model.specs.declared.Stage.TheVariants.{Wishing};
ghost use Rattle.flow_machine.specs.Answers.{status_of, case_of};
ghost use Rattle.flow_machine.specs.Effects.{WishesSend, id_sent};
ghost use Rattle.flow_machine.specs.Outlets.{output_in};

use crate::answers::{Case, Over, Status};
use crate::inlet::Inlet;
use crate::outlets::{outlet_at, output_at};
use flow_component::{Component, Port, Wish};
use flow_limits::TURN_LIMIT;
use flow_model::Stage;
use flow_packet::{Hands, Kind, Packet, PacketId};
use std::marker::Model;

mod begin;
mod effect;
mod idle;
mod restamp;
mod think;

/// A process: it runs a component.
pub struct Body<K: Component> {
    stage: Stage,
    has_run: bool,
    component: K,
    hands: Hands,
    inlets: Vec<Inlet>,
    fresh: Vec<bool>,
    /// The connections at its outputs, of which the last is the automatic one.
    outputs: Vec<Option<u32>>,
    /// The connection at its automatic input, and whether a packet came there.
    signal: Option<u32>,
    signalled: bool,
    depths: Vec<u64>,
    /// The kind of a packet that has left for its connection, while the turn that sends it isn't over.
    leaving: Option<Kind>,
    /// The stamps of its turns, and the level numbers that it was told with their stamps.
    stamps: Vec<u32>,
    levels: Vec<(u32, u16)>,
    /// A copy of the initial text that its next turn receives.
    copy: Option<Vec<u8>>,
}

impl<K: Component> Model for Body<K> {
    ghost use Rattle.flow_machine.specs.Values.{BodyValue};
    ghost use Rattle.flow_machine.specs.Codes.{body_code};

    ghost Value = { BodyValue K };

    ghost coded = { body_code K.code };

    ghost use Rattle.flow_machine.specs.Bodies.{IsBody};
    ghost use Rattle.flow_machine.specs.Views.{process_shown, body_shown};

    ghost view = { body_shown K.state_of K.told_end };

    ghost invariant = { λ b. IsBody K.rules (process_shown K.state_of b) b.leaving };
}

/// The packet that is to be sent at this stage.
fn sent_id(stage: Stage) -> Option<PacketId>
    ensures { result ≡ id_sent stage }
{
    match stage {
        Stage::Wishing(wish) => match wish {
            Wish::Send(_, id) => Some(id),
            _ => None,
        },
        _ => None,
    }
}

impl<K: Component> Body<K> {
    pub fn status(&self) -> Status
        ensures { result ≡ status_of self.now.process.stage }
    {
        match self.stage {
            Stage::Idle => Status::Idle,
            Stage::Told(_) => Status::Active,
            Stage::Wishing(_) => Status::Active,
            Stage::Closing(place) => Status::Closing(place),
            Stage::Ended => Status::Ended,
            Stage::Failed(cause) => Status::Failed(cause),
        }
    }

    /// Where it stands, with its wish or the answer that its work is to come for.
    pub fn stage(&self) -> Stage
        ensures { result ≡ self.now.process.stage }
    {
        self.stage
    }

    /// It was deactivated at least once.
    pub fn has_run(&self) -> bool
        ensures { result ≡ self.now.process.has_run }
    {
        self.has_run
    }

    /// Its component, of which the process has the state.
    pub fn component(&self) -> &K
        ensures { K.state_of result.now ≡ self.now.process.component }
    {
        &self.component
    }

    /// The packets that it owns and holds.
    pub fn hands(&self) -> &Hands
        ensures held { held_of result.now ≡ self.now.process.held }
        ensures dropped { result.now.dropped ≡ self.now.dropped }
    {
        &self.hands
    }

    /// The stamps of its turns, in order.
    pub fn turns(&self) -> &[u32]
        ensures stamps { result.now ≡ self.now.stamps }
        ensures count { length result.now ≡ self.now.process.turns }
        ensures few { length result.now ≤ TURN_LIMIT }
    {
        &self.stamps
    }

    /// The level numbers that it was told, each with the stamp of its turn.
    pub fn levels(&self) -> &[(u32, u16)]
        ensures { result.now ≡ self.now.levels }
    {
        &self.levels
    }

    /// How many inputs it has.
    pub fn inputs(&self) -> usize
        ensures { result ≡ length self.now.process.inputs }
    {
        self.inlets.len()
    }

    /// The connection at an input, if there is one.
    pub fn input(&self, input: usize) -> Option<u32>
        requires { input < length self.now.process.inputs }
        ensures { connection_of (slice_get self.now.process.inputs input) ≡ result }
    {
        match &self.inlets[input] {
            Inlet::Connection(connection) => Some(*connection),
            Inlet::Text(_) => None,
        }
    }

    /// How many outputs it has.
    pub fn outputs(&self) -> usize
        ensures { result ≡ length self.now.process.outputs }
    {
        self.outputs.len()
    }

    /// The connection at an output, if there is one.
    pub fn output(&self, output: usize) -> Option<u32>
        ensures { result ≡ output_in self.now.process.outputs output }
    {
        match self.outputs.get(output) {
            Some(connection) => *connection,
            None => None,
        }
    }

    /// The connection at the automatic input, if there is one.
    pub fn signal(&self) -> Option<u32>
        ensures { result ≡ self.now.process.signal }
    {
        self.signal
    }

    /// A packet came at the automatic input.
    pub fn signalled(&self) -> bool
        ensures { result ≡ self.now.process.signalled }
    {
        self.signalled
    }

    /// Some input has a connection.
    pub fn is_connected(&self) -> bool
        ensures { result ≡ list_any is_connected self.now.process.inputs }
    {
        idle::any_connected(&self.inlets)
    }

    /// It wishes to receive or to send.
    #[inline(always)]
    pub(crate) fn wishes_packet(&self) -> bool
        ensures receives { (port : Port) → self.now.process.stage ≡ Wishing (Receive port) → IsTrue result }
        ensures sends { (port : Port) (id : ℕ) → self.now.process.stage ≡ Wishing (Send port id) → IsTrue result }
        ensures only { IsTrue result → ((port : Port) × (self.now.process.stage ≡ Wishing (Receive port))) ⊎ ((port : Port) × (id : ℕ) × (self.now.process.stage ≡ Wishing (Send port id))) }
    {
        match self.stage {
            Stage::Wishing(wish) => match wish {
                Wish::Receive(_) => true,
                Wish::Send(_, _) => true,
                _ => false,
            },
            _ => false,
        }
    }

    /// The kind of turn that its status and wish ask for.
    #[inline(always)]
    pub fn case(&self) -> Case
        requires whole { self.now.leaving ≡ None }
        requires thought { IsThoughtStage self.now.process.stage }
        ensures { case_of self.now.process ≡ Some result }
    {
        match self.stage {
            Stage::Idle => Case::Idle,
            Stage::Told(_) => unreachable!(),
            Stage::Wishing(wish) => self.wish_case(wish),
            Stage::Closing(place) => match outlet_at(&self.outputs, place) {
                Some(connection) => Case::Close { connection },
                None => unreachable!(),
            },
            Stage::Ended => Case::Over(Over::Ended),
            Stage::Failed(_) => Case::Over(Over::Failed),
        }
    }

    #[inline(always)]
    fn wish_case(&self, wish: Wish) -> Case
        requires whole { self.now.leaving ≡ None }
        requires wishes { self.now.process.stage ≡ Wishing wish }
        ensures { case_of self.now.process ≡ Some result }
    {
        match wish {
            Wish::Receive(port) => match self.inlets.get(port.0 as usize) {
                Some(Inlet::Connection(connection)) => Case::Receive {
                    connection: *connection,
                    port,
                },
                Some(Inlet::Text(_)) => Case::Initial(port),
                None => unreachable!(),
            },
            Wish::Send(port, _) => match output_at(&self.outputs, port) {
                Some(connection) => Case::Send { connection, port },
                None => unreachable!(),
            },
            Wish::Level(port) => match output_at(&self.outputs, port) {
                Some(connection) => Case::Level { connection, port },
                None => unreachable!(),
            },
            Wish::Deactivate => Case::Deactivate,
        }
    }

    /// The packet of its wish leaves the hands. Only the effect of the send may follow.
    #[inline(always)]
    pub fn outgoing(&mut self) -> Packet
        requires whole { self.old.leaving ≡ None }
        requires sends { WishesSend self.old.process.stage }
        ensures packet { IfSome (id_sent self.old.process.stage) (λ id. packet_at self.old.process.held.packets id ≡ Some result) }
        ensures left { IfSome (id_sent self.old.process.stage) (λ id. self.new ≡ record self.old { process = record self.old.process { held = without_packet self.old.process.held id }; leaving = Some (kind_of result); places = self.old.places + 1 }) }
    {
        let stage = self.stage;
        let Some(id) = sent_id(stage) else {
            unreachable!()
        };
        let packet = self.hands.take(id);
        self.leaving = Some(packet.kind());
        packet
    }

    /// Gives it up, and spends what it holds.
    pub fn discard(self) {
        let Body {
            stage: _,
            has_run: _,
            component: _,
            hands,
            inlets: _,
            fresh: _,
            outputs: _,
            signal: _,
            signalled: _,
            depths: _,
            leaving: _,
            stamps: _,
            levels: _,
            copy: _,
        } = self;
        hands.discard();
    }
}
