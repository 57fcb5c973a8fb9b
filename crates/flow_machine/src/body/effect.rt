//! The turns of a process, as far as it alone changes.
ghost use Rattle.std.specs.Prelude.{◌≡◌, ◌+◌, ◌-◌, ◌^◌, ◌<◌, [], ◌∷◌, ◌++◌, None, Some, IsTrue, IfSome, length, option_map, slice_get, slice_set, false, vec_len, vec_capacity};
ghost use Rattle.flow_limits.specs.declared.TheConstants.{HANDS_LIMIT};
ghost use Rattle.flow_packet.specs.Tree.{id_of, kind_of};
ghost use Rattle.flow_packet.specs.Held.{without_packet};
ghost use Rattle.flow_packet.specs.Hands.{packet_at};
ghost use Rattle.flow_model.specs.Turns.{limited, depth_after};
ghost use Rattle.flow_model.specs.Works.{nests};
ghost use Rattle.flow_model.specs.declared.Stage.TheVariants.{Wishing, Idle};
ghost use Rattle.flow_component.specs.declared.Wish.TheVariants.{Receive, Send, Deactivate, Level};
ghost use Rattle.flow_machine.specs.Outlets.{closing_in};
ghost use Rattle.flow_machine.specs.Effects.{IsEffectFor, TakesTurn, port_at, depths_sent, CanDeepen, WishesSend, id_sent};
ghost use Rattle.flow_machine.specs.Thoughts.{HasRoom};

use super::{Body, sent_id};
use crate::answers::Effect;
use crate::inlet::{Inlet, freshen};
use crate::outlets::outlet_count;
use flow_component::{Answer, Component, Fail, Port, Wish};
use flow_limits::{HANDS_LIMIT, TURN_LIMIT};
use flow_model::Stage;
use flow_packet::{Hands, Kind, Packet, PacketId};

/// It has failed by its last turn.
#[cold]
#[inline(never)]
fn fail_by_limit(stage: &mut Stage)
    ensures { stage.new ≡ Stage.Failed Fail.TurnLimit }
{
    *stage = Stage::Failed(Fail::TurnLimit);
}

/// It comes to a stage by a turn. A process that made its last turn fails by it, unless it has ended.
#[inline(always)]
fn enter(stage: &mut Stage, turns: usize, next: Stage)
    ensures { stage.new ≡ limited turns next }
{
    match next {
        Stage::Ended => *stage = next,
        _ => {
            if turns == TURN_LIMIT {
                fail_by_limit(stage);
            } else {
                *stage = next;
            }
        }
    }
}

/// It closes the connected output at this place, or has ended where there is none.
fn closing_stage(outputs: &[Option<u32>], place: u32) -> Stage
    ensures { result ≡ closing_in outputs.now place }
{
    if (place as usize) < outlet_count(outputs) {
        Stage::Closing(place)
    } else {
        Stage::Ended
    }
}

/// The depth of an output after a packet of this kind.
fn deepened(kind: Kind, depth: u64) -> u64
    requires room { depth + 1 < 2 ^ 64 }
    requires nests { IsTrue (nests kind depth) }
    ensures { result ≡ depth_after kind depth }
{
    match kind {
        Kind::Normal => depth,
        Kind::Open => depth + 1,
        Kind::Close => depth - 1,
    }
}

/// The depth of an output to which a packet of this kind was sent, if one was.
fn deepen(depths: &mut [u64], port: Port, kind: Option<Kind>)
    requires { CanDeepen depths.old port.0 kind }
    ensures { depths.new ≡ depths_sent depths.old port.0 kind }
{
    if let Some(kind) = kind {
        let depth = depths[port.0 as usize];
        depths[port.0 as usize] = deepened(kind, depth);
    }
}

/// The port that the wish at this stage names, and 0 where it names none.
fn wished_port(stage: Stage) -> Port
    ensures { result.0 ≡ port_at stage }
{
    match stage {
        Stage::Wishing(wish) => match wish {
            Wish::Receive(port) => port,
            Wish::Send(port, _) => port,
            Wish::Level(port) => port,
            Wish::Deactivate => Port(0),
        },
        _ => Port(0),
    }
}

/// The id of the last of these packets.
fn last_id(packets: &[Packet]) -> PacketId
    requires { 0 < length packets.now }
    ensures { option_map id_of (slice_get packets.now (length packets.now - 1)) ≡ Some result }
{
    packets[packets.len() - 1].id()
}

/// Takes a packet into the hands, and answers its id, which is read where it then stands: so the packet is moved in one piece.
fn take_in(hands: &mut Hands, packet: Packet) -> PacketId
    requires room { 0 < hands.old.spare }
    requires few { length hands.old.packets < HANDS_LIMIT }
    ensures id { result ≡ id_of packet }
    ensures put { hands.new ≡ record hands.old { packets = hands.old.packets ++ packet ∷ []; spare = hands.old.spare - 1 } }
{
    hands.put(packet);
    last_id(hands.packets())
}

/// The text at a port isn't fresh any more.
fn use_up(fresh: &mut [bool], port: Port)
    ensures { fresh.new ≡ slice_set fresh.old port.0 false }
{
    if (port.0 as usize) < fresh.len() {
        fresh[port.0 as usize] = false;
    }
}

/// Adds a stamp where there is room for it.
fn add_stamp(stamps: &mut Vec<u32>, stamp: u32)
    requires { vec_len stamps.old < vec_capacity stamps.old }
    ensures items { stamps.new.items ≡ stamps.old.items ++ stamp ∷ [] }
    ensures len { vec_len stamps.new ≡ vec_len stamps.old + 1 }
{
    stamps.push_reserved(stamp);
}

/// Adds a level number with its stamp where there is room for it.
fn add_level(levels: &mut Vec<(u32, u16)>, stamp: u32, level: u16)
    requires { vec_len levels.old < vec_capacity levels.old }
    ensures { levels.new.items ≡ levels.old.items ++ (stamp, level) ∷ [] }
{
    levels.push_reserved((stamp, level));
}

impl<K: Component> Body<K> {
    /// Changes the process alone, as a turn with this effect does. Takes no memory: the room of the turn is used up.
    #[inline(always)]
    pub fn effect(&mut self, effect: Effect, stamp: u32)
        requires room { HasRoom self.old }
        requires effect { IsEffectFor self.old.process self.old.leaving effect }
        ensures { TakesTurn self.old effect stamp self.new }
    {
        match effect {
            Effect::Start => self.start(stamp),
            Effect::ToClosing => self.begin_closing(stamp),
            Effect::Got(packet) => self.get(packet, stamp),
            Effect::End => self.hear_end(stamp),
            Effect::Initial => self.receive_text(stamp),
            Effect::Sent => self.finish_send(stamp),
            Effect::Level(level) => self.learn(level, stamp),
            Effect::Deactivate => self.deactivate(stamp),
            Effect::Closed => self.close(stamp),
            Effect::Signal(packet) => self.take_signal(packet, stamp),
        }
    }

    pub(crate) fn start(&mut self, stamp: u32)
        requires room { HasRoom self.old }
        requires effect { IsEffectFor self.old.process self.old.leaving Effect.Start }
        ensures { TakesTurn self.old Effect.Start stamp self.new }
    {
        freshen(&mut self.fresh, &self.inlets);
        add_stamp(&mut self.stamps, stamp);
        enter(
            &mut self.stage,
            self.stamps.len(),
            Stage::Told(Answer::Start),
        );
    }

    pub(crate) fn begin_closing(&mut self, stamp: u32)
        requires room { HasRoom self.old }
        requires effect { IsEffectFor self.old.process self.old.leaving Effect.ToClosing }
        ensures { TakesTurn self.old Effect.ToClosing stamp self.new }
    {
        add_stamp(&mut self.stamps, stamp);
        let stage = closing_stage(&self.outputs, 0);
        enter(&mut self.stage, self.stamps.len(), stage);
    }

    #[inline(always)]
    pub(crate) fn get(&mut self, packet: Packet, stamp: u32)
        requires room { HasRoom self.old }
        requires effect { IsEffectFor self.old.process self.old.leaving (Effect.Got packet) }
        ensures { TakesTurn self.old (Effect.Got packet) stamp self.new }
    {
        let id = take_in(&mut self.hands, packet);
        add_stamp(&mut self.stamps, stamp);
        enter(
            &mut self.stage,
            self.stamps.len(),
            Stage::Told(Answer::Got(id)),
        );
    }

    pub(crate) fn hear_end(&mut self, stamp: u32)
        requires room { HasRoom self.old }
        requires effect { IsEffectFor self.old.process self.old.leaving Effect.End }
        ensures { TakesTurn self.old Effect.End stamp self.new }
    {
        add_stamp(&mut self.stamps, stamp);
        enter(&mut self.stage, self.stamps.len(), Stage::Told(Answer::End));
    }

    #[cold]
    #[inline(never)]
    pub(crate) fn receive_text(&mut self, stamp: u32)
        requires room { HasRoom self.old }
        requires effect { IsEffectFor self.old.process self.old.leaving Effect.Initial }
        ensures { TakesTurn self.old Effect.Initial stamp self.new }
    {
        let port = wished_port(self.stage);
        match self.copy.take() {
            Some(text) => {
                let id = self.hands.make_normal(text);
                use_up(&mut self.fresh, port);
                add_stamp(&mut self.stamps, stamp);
                enter(
                    &mut self.stage,
                    self.stamps.len(),
                    Stage::Told(Answer::Got(id)),
                );
            }
            None => {
                add_stamp(&mut self.stamps, stamp);
                enter(&mut self.stage, self.stamps.len(), Stage::Told(Answer::End));
            }
        }
    }

    /// The packet of its wish leaves, and with that the turn that sends it is over.
    #[inline(always)]
    pub(crate) fn send(&mut self, stamp: u32) -> Packet
        requires whole { self.old.leaving ≡ None }
        requires sends { WishesSend self.old.process.stage }
        requires room { HasRoom self.old }
        ensures packet { IfSome (id_sent self.old.process.stage) (λ id. packet_at self.old.process.held.packets id ≡ Some result) }
        ensures turn { IfSome (id_sent self.old.process.stage) (λ id. TakesTurn (record self.old { process = record self.old.process { held = without_packet self.old.process.held id }; leaving = Some (kind_of result); places = self.old.places + 1 }) Effect.Sent stamp self.new) }
    {
        let stage = self.stage;
        let Some(id) = sent_id(stage) else {
            unreachable!()
        };
        let port = wished_port(self.stage);
        let kind = self.hands.kind(id);
        deepen(&mut self.depths, port, Some(kind));
        add_stamp(&mut self.stamps, stamp);
        enter(
            &mut self.stage,
            self.stamps.len(),
            Stage::Told(Answer::Sent),
        );
        self.hands.take(id)
    }

    pub(crate) fn finish_send(&mut self, stamp: u32)
        requires room { HasRoom self.old }
        requires effect { IsEffectFor self.old.process self.old.leaving Effect.Sent }
        ensures { TakesTurn self.old Effect.Sent stamp self.new }
    {
        let port = wished_port(self.stage);
        deepen(&mut self.depths, port, self.leaving);
        self.leaving = None;
        add_stamp(&mut self.stamps, stamp);
        enter(
            &mut self.stage,
            self.stamps.len(),
            Stage::Told(Answer::Sent),
        );
    }

    #[cold]
    #[inline(never)]
    pub(crate) fn learn(&mut self, level: u32, stamp: u32)
        requires room { HasRoom self.old }
        requires effect { IsEffectFor self.old.process self.old.leaving (Effect.Level level) }
        ensures { TakesTurn self.old (Effect.Level level) stamp self.new }
    {
        add_level(&mut self.levels, stamp, level as u16);
        add_stamp(&mut self.stamps, stamp);
        enter(
            &mut self.stage,
            self.stamps.len(),
            Stage::Told(Answer::Level(level)),
        );
    }

    #[cold]
    #[inline(never)]
    pub(crate) fn deactivate(&mut self, stamp: u32)
        requires room { HasRoom self.old }
        requires effect { IsEffectFor self.old.process self.old.leaving Effect.Deactivate }
        ensures { TakesTurn self.old Effect.Deactivate stamp self.new }
    {
        self.has_run = true;
        add_stamp(&mut self.stamps, stamp);
        enter(&mut self.stage, self.stamps.len(), Stage::Idle);
    }

    #[cold]
    #[inline(never)]
    pub(crate) fn take_signal(&mut self, packet: Packet, stamp: u32)
        requires room { HasRoom self.old }
        requires effect { IsEffectFor self.old.process self.old.leaving (Effect.Signal packet) }
        ensures { TakesTurn self.old (Effect.Signal packet) stamp self.new }
    {
        self.hands.swallow(packet);
        self.signalled = true;
        add_stamp(&mut self.stamps, stamp);
        enter(&mut self.stage, self.stamps.len(), Stage::Idle);
    }

    #[cold]
    #[inline(never)]
    pub(crate) fn close(&mut self, stamp: u32)
        requires room { HasRoom self.old }
        requires effect { IsEffectFor self.old.process self.old.leaving Effect.Closed }
        ensures { TakesTurn self.old Effect.Closed stamp self.new }
    {
        add_stamp(&mut self.stamps, stamp);
        let stage = self.stage;
        let Stage::Closing(place) = stage else {
            unreachable!()
        };
        let next = closing_stage(&self.outputs, place + 1);
        enter(&mut self.stage, self.stamps.len(), next);
    }
}
