//! Bodies on the heap.
ghost use Rattle.std.specs.Prelude.{◌≡◌, ◌+◌, ◌++◌, ◌^◌, ◌<◌, ◌≤◌, [], length, vec_capacity, IfOk, IfErr, IfSome, None, Some, slice_get};
ghost use Rattle.std.specs.List.{list_any};
ghost use Rattle.std.specs.Vec.Iter.{into_iter_items, into_iter_len};
ghost use Rattle.flow_packet.specs.Tree.{kind_of};
ghost use Rattle.flow_packet.specs.Held.{without_packet};
ghost use Rattle.flow_packet.specs.Hands.{packet_at};
ghost use Rattle.flow_model.specs.Order.{connection_of};
ghost use Rattle.flow_model.specs.Events.{is_connected};
ghost use Rattle.flow_model.specs.Stages.{IsThoughtStage};
ghost use Rattle.flow_machine.specs.Answers.{case_of};
ghost use Rattle.flow_machine.specs.Effects.{IsEffectFor, TakesTurn, WishesSend, id_sent};
ghost use Rattle.flow_machine.specs.Stamps.{restamped};
ghost use Rattle.flow_machine.specs.Thoughts.{HasRoom, Thinks, KeepsTurns, PassesFirst};

use flow_component::{Component, Gate};
use flow_machine::{Body, Case, Effect, Stage, Thought};
use flow_packet::Packet;
use std::alloc::Global;
use std::marker::Model;
use std::vec::IntoIter;

/// A body on the heap: it is moved by its address, and a slot needn't be as large as a body.
pub struct Rack<K: Component> {
    body: Box<Body<K>>,
}

impl<K: Component> Model for Rack<K> {
    ghost use Rattle.flow_machine.specs.Values.{BodyValue};
    ghost use Rattle.flow_machine.specs.Codes.{body_code};

    ghost Value = { BodyValue K };

    ghost coded = { body_code K.code };

    ghost view = { λ r. r.body.value };
}

impl<K: Component> Rack<K> {
    /// Without memory the body comes back.
    pub(crate) fn new(alloc: Global, body: Body<K>) -> Result<Rack<K>, Body<K>>
        ensures racked { IfOk result (λ r. r ≡ body) }
        ensures refused { IfErr result (λ b. b ≡ body) }
    {
        match Box::new(alloc, body) {
            Ok(body) => Ok(Rack { body }),
            Err(failed) => Err(failed.value),
        }
    }

    /// The body, off the heap.
    pub(crate) fn into_body(self) -> Body<K>
        ensures { result ≡ self }
    {
        let Rack { body } = self;
        Box::into_inner(body)
    }

    /// As `Body::stage`.
    #[inline(always)]
    pub(crate) fn stage(&self) -> Stage
        ensures { result ≡ self.now.process.stage }
    {
        self.body.stage()
    }

    /// As `Body::has_run`.
    #[inline(always)]
    pub(crate) fn has_run(&self) -> bool
        ensures { result ≡ self.now.process.has_run }
    {
        self.body.has_run()
    }

    /// As `Body::inputs`.
    #[inline(always)]
    pub(crate) fn inputs(&self) -> usize
        ensures { result ≡ length self.now.process.inputs }
    {
        self.body.inputs()
    }

    /// As `Body::input`.
    #[inline(always)]
    pub(crate) fn input(&self, input: usize) -> Option<u32>
        requires { input < length self.now.process.inputs }
        ensures { connection_of (slice_get self.now.process.inputs input) ≡ result }
    {
        self.body.input(input)
    }

    /// As `Body::signal`.
    #[inline(always)]
    pub(crate) fn signal(&self) -> Option<u32>
        ensures { result ≡ self.now.process.signal }
    {
        self.body.signal()
    }

    /// As `Body::signalled`.
    #[inline(always)]
    pub(crate) fn signalled(&self) -> bool
        ensures { result ≡ self.now.process.signalled }
    {
        self.body.signalled()
    }

    /// As `Body::is_connected`.
    #[inline(always)]
    pub(crate) fn is_connected(&self) -> bool
        ensures { result ≡ list_any is_connected self.now.process.inputs }
    {
        self.body.is_connected()
    }

    /// As `Body::case`.
    #[inline(always)]
    pub(crate) fn case(&self) -> Case
        requires whole { self.now.leaving ≡ None }
        requires thought { IsThoughtStage self.now.process.stage }
        ensures { case_of self.now.process ≡ Some result }
    {
        self.body.case()
    }

    /// As `Body::outgoing`.
    #[inline(always)]
    pub(crate) fn outgoing(&mut self) -> Packet
        requires whole { self.old.leaving ≡ None }
        requires sends { WishesSend self.old.process.stage }
        ensures packet { IfSome (id_sent self.old.process.stage) (λ id. packet_at self.old.process.held.packets id ≡ Some result) }
        ensures left { IfSome (id_sent self.old.process.stage) (λ id. self.new ≡ record self.old { process = record self.old.process { held = without_packet self.old.process.held id }; leaving = Some (kind_of result); places = self.old.places + 1 }) }
    {
        self.body.outgoing()
    }

    /// As `Body::effect`.
    #[inline(always)]
    pub(crate) fn effect(&mut self, effect: Effect, stamp: u32)
        requires room { HasRoom self.old }
        requires effect { IsEffectFor self.old.process self.old.leaving effect }
        ensures { TakesTurn self.old effect stamp self.new }
    {
        self.body.effect(effect, stamp);
    }

    /// As `Body::restamp`.
    #[inline(always)]
    pub(crate) fn restamp(&mut self, count: u32, first: u32)
        requires few { count ≤ length self.old.stamps }
        requires small { first + count ≤ 2 ^ 32 }
        ensures { self.new ≡ record self.old { stamps = restamped count first self.old.stamps } }
    {
        self.body.restamp(count, first);
    }

    /// As `Body::think`.
    #[inline(always)]
    pub(crate) fn think<G: Gate>(&mut self, gate: &G) -> Thought
        requires { self.old.leaving ≡ None }
        ensures thinks { Thinks K.rules self.old result self.new }
        ensures keeps { KeepsTurns self.old self.new }
        ensures passed { PassesFirst (G.has_passed gate.now) self.old }
    {
        self.body.think(gate)
    }
}

/// Takes the bodies off the heap again, behind those that are there.
fn unracked<K: Component>(racks: Vec<Rack<K>>, mut bodies: Vec<Body<K>>) -> Vec<Body<K>>
    requires room { length bodies.items + length racks.items ≤ vec_capacity bodies }
    ensures items { result.items ≡ bodies.items ++ racks.items }
    ensures room { vec_capacity result ≡ vec_capacity bodies }
{
    let mut left = racks.into_iter();
    while let Some(rack) = left.next() {
        bodies.push_reserved(rack.into_body());
    }
    left.destroy_empty();
    bodies
}

/// Puts the bodies that are left behind those that are there.
fn with_rest<K: Component>(mut left: IntoIter<Body<K>>, mut bodies: Vec<Body<K>>) -> Vec<Body<K>>
    requires len { into_iter_len left ≡ length (into_iter_items left) }
    requires room { length bodies.items + length (into_iter_items left) ≤ vec_capacity bodies }
    ensures items { result.items ≡ bodies.items ++ into_iter_items left }
{
    while let Some(body) = left.next() {
        bodies.push_reserved(body);
    }
    left.destroy_empty();
    bodies
}

/// Puts the bodies on the heap, and gives the room for them back. Without memory they come back in it.
pub(crate) fn racked<K: Component>(
    alloc: Global,
    bodies: Vec<Body<K>>,
    mut racks: Vec<Rack<K>>,
    room: Vec<Body<K>>,
) -> Result<(Vec<Rack<K>>, Vec<Body<K>>), Vec<Body<K>>>
    requires racks { (racks.items ≡ []) × (length bodies.items ≤ vec_capacity racks) }
    requires room { (length room.items ≡ 0) × (length bodies.items ≤ vec_capacity room) }
    ensures racked { IfOk result (λ r. r.0.items ≡ bodies.items) }
    ensures room { IfOk result (λ r. (length r.1.items ≡ 0) × (vec_capacity r.1 ≡ vec_capacity room)) }
    ensures refused { IfErr result (λ bs. bs.items ≡ bodies.items) }
{
    let mut left = bodies.into_iter();
    while let Some(body) = left.next() {
        match Rack::new(alloc, body) {
            Ok(rack) => racks.push_reserved(rack),
            Err(body) => {
                let mut back = unracked(racks, room);
                back.push_reserved(body);
                return Err(with_rest(left, back));
            }
        }
    }
    left.destroy_empty();
    Ok((racks, room))
}
