//! The slots with which a floor begins.
ghost use Rattle.std.specs.Prelude.{◌≡◌, ℕ, ◌+◌, ◌++◌, ◌≤◌, ◌<◌, [], length, map, replicate, slice_index, vec_capacity, None, Some, slice_get};
ghost use Rattle.flow_floor.specs.declared.board.Slot.TheVariants as Slot;
ghost use Rattle.flow_ring.specs.Places.{slot_count};
ghost use Rattle.flow_floor.specs.Opening.{emptied, AreSameButCells, AreSound, FirstSlots, HasCells, IsIn};
ghost use Rattle.flow_floor.specs.Laying.{AreLaid, AreSameBelow};
ghost use Rattle.flow_machine.specs.Values.{net_of, BodyValue};

use crate::board::Slot;
use crate::rack::Rack;
use flow_component::Component;
use flow_machine::Channel;
use flow_ring::Layout;
use std::mem;

/// Puts the bodies into slots.
fn put_bodies<K: Component>(bodies: Vec<Rack<K>>, mut slots: Vec<Slot<K>>) -> Vec<Slot<K>>
    requires room { length slots.items + length bodies.items ≤ vec_capacity slots }
    ensures items { result.items ≡ slots.items ++ map Slot.Body bodies.items }
    ensures room { vec_capacity result ≡ vec_capacity slots }
{
    let mut left = bodies.into_iter();
    while let Some(body) = left.next() {
        slots.push_reserved(Slot::Body(body));
    }
    left.destroy_empty();
    slots
}

/// Puts the numbers of puts into slots.
fn put_puts<K: Component>(channels: &[Channel], mut slots: Vec<Slot<K>>) -> Vec<Slot<K>>
    requires room { length slots.items + length channels.now ≤ vec_capacity slots }
    ensures items { result.items ≡ slots.items ++ map (λ k. Slot.Count k.puts) channels.now }
    ensures room { vec_capacity result ≡ vec_capacity slots }
{
    for c in 0..channels.len() {
        slots.push_reserved(Slot::Count(channels[c].puts()));
    }
    slots
}

/// Puts the numbers of takes into slots.
fn put_takes<K: Component>(channels: &[Channel], mut slots: Vec<Slot<K>>) -> Vec<Slot<K>>
    requires room { length slots.items + length channels.now ≤ vec_capacity slots }
    ensures items { result.items ≡ slots.items ++ map (λ k. Slot.Count k.takes) channels.now }
    ensures room { vec_capacity result ≡ vec_capacity slots }
{
    for c in 0..channels.len() {
        slots.push_reserved(Slot::Count(channels[c].takes()));
    }
    slots
}

/// Puts empty cells into slots, so many.
fn put_cells<K: Component>(count: usize, mut slots: Vec<Slot<K>>) -> Vec<Slot<K>>
    requires room { length slots.items + count ≤ vec_capacity slots }
    ensures { result.items ≡ slots.items ++ replicate count (Slot.Cell None) }
{
    for _i in 0..count {
        slots.push_reserved(Slot::Cell(None));
    }
    slots
}

/// Moves the packets of a connection into its cells, all of which are empty: a packet's place is the number of those that were put before it.
fn lay_packets<K: Component>(
    layout: &Layout,
    connection: usize,
    channel: &mut Channel,
    slots: &mut Vec<Slot<K>>,
)
    requires range { connection < layout.now.connections }
    requires size { channel.old.capacity ≡ slice_index layout.now.capacities.items connection }
    requires level { length channel.old.packets ≤ channel.old.capacity }
    requires numbers { channel.old.puts ≡ channel.old.takes + length channel.old.packets }
    requires deep { length slots.old.items ≡ slot_count layout.now.processes layout.now.capacities.items }
    requires empty { HasCells layout.now.processes layout.now.capacities.items slots.old.items connection channel.old.takes [] }
    ensures emptied { channel.new ≡ emptied channel.old }
    ensures laid { HasCells layout.now.processes layout.now.capacities.items slots.new.items connection channel.old.takes channel.old.packets }
    ensures others { AreSameButCells layout.now.processes layout.now.capacities.items connection slots.old.items slots.new.items }
    ensures deep { length slots.new.items ≡ length slots.old.items }
{
    let first = channel.takes();
    let end = channel.puts();
    for place in first..end {
        let at = layout.cell(connection, place);
        let packet = channel.take();
        let cell = mem::replace(&mut slots[at], Slot::Cell(Some(packet)));
        let Slot::Cell(found) = cell else {
            unreachable!()
        };
        let None = found else { unreachable!() };
    }
}

/// Moves the packets of all connections into their cells.
fn lay_all_packets<K: Component>(
    layout: &Layout,
    mut channels: Vec<Channel>,
    slots: &mut Vec<Slot<K>>,
) -> Vec<Channel>
    requires capacities { layout.now.capacities.items ≡ map (λ k. k.capacity) channels.items }
    requires sound { AreSound channels.items }
    requires deep { length slots.old.items ≡ slot_count layout.now.processes layout.now.capacities.items }
    requires empty { AreLaid layout.now.processes layout.now.capacities.items channels.items 0 slots.old.items }
    ensures emptied { result.items ≡ map emptied channels.items }
    ensures laid { AreLaid layout.now.processes layout.now.capacities.items channels.items layout.now.connections slots.new.items }
    ensures bodies { AreSameBelow layout.now.processes slots.old.items slots.new.items }
    ensures deep { length slots.new.items ≡ length slots.old.items }
{
    for connection in 0..layout.connections {
        lay_packets(layout, connection, &mut channels[connection], slots);
    }
    channels
}

/// Puts the bodies into slots, and for each connection its numbers and its cells, which are empty.
fn put_all<K: Component>(
    layout: &Layout,
    bodies: Vec<Rack<K>>,
    channels: &[Channel],
    slots: Vec<Slot<K>>,
) -> Vec<Slot<K>>
    requires processes { layout.now.processes ≡ length bodies.items }
    requires connections { layout.now.connections ≡ length channels.now }
    requires room { (slots.items ≡ []) × (slot_count layout.now.processes layout.now.capacities.items ≤ vec_capacity slots) }
    ensures deep { length result.items ≡ slot_count layout.now.processes layout.now.capacities.items }
    ensures bodies { (p : ℕ) (b : BodyValue K) → slice_get bodies.items p ≡ Some b → IsIn result.items p (Slot.Body b) }
    ensures empty { AreLaid layout.now.processes layout.now.capacities.items channels.now 0 result.items }
{
    let slots = put_bodies(bodies, slots);
    let slots = put_puts(channels, slots);
    let slots = put_takes(channels, slots);
    put_cells(layout.cells(), slots)
}

/// The slots at the start, and the connections without their packets.
pub(crate) fn first_slots<K: Component>(
    layout: &Layout,
    bodies: Vec<Rack<K>>,
    channels: Vec<Channel>,
    slots: Vec<Slot<K>>,
) -> (Vec<Slot<K>>, Vec<Channel>)
    requires processes { layout.now.processes ≡ length bodies.items }
    requires capacities { layout.now.capacities.items ≡ map (λ k. k.capacity) channels.items }
    requires sound { AreSound channels.items }
    requires room { (slots.items ≡ []) × (slot_count layout.now.processes layout.now.capacities.items ≤ vec_capacity slots) }
    ensures slots { FirstSlots (net_of bodies.items channels.items) result.0.items }
    ensures emptied { result.1.items ≡ map emptied channels.items }
{
    let mut slots = put_all(layout, bodies, channels.as_slice(), slots);
    let channels = lay_all_packets(layout, channels, &mut slots);
    (slots, channels)
}
