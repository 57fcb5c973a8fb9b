//! How a net comes back that couldn't be opened.
ghost use Rattle.std.specs.Prelude.{◌≡◌, ℕ, ◌+◌, ◌<◌, ◌≤◌, [], length, map, vec_capacity, Some, slice_get};
ghost use Rattle.flow_model.specs.Stands.{ChannelShown};
ghost use Rattle.flow_machine.specs.Joins.{Joins};
ghost use Rattle.flow_machine.specs.Values.{BodyValue};
ghost use Rattle.flow_floor.specs.declared.board.Slot.TheVariants as Slot;
ghost use Rattle.flow_floor.specs.Ends.{capacities_of};
ghost use Rattle.flow_ring.specs.Places.{slot_count};
ghost use Rattle.flow_floor.specs.Laying.{AreLaidFrom, AreSameFrom};
ghost use Rattle.flow_floor.specs.Opening.{emptied, AreSameButCells, AreSound, FirstSlots, HasCells, HasPackets, IsIn};
ghost use Rattle.flow_floor.specs.Rooms.{HasRooms};

use crate::board::Slot;
use crate::rooms::Rooms;
use flow_component::Component;
use flow_machine::{Body, Channel, Net, Parts};
use flow_plan::Connection;
use flow_ring::Layout;
use std::mem;
use std::snapshot::Snapshot;

/// Takes the bodies out of the first slots again.
fn take_back_bodies<K: Component>(
    about: &Snapshot<Net<K>>,
    slots: &mut Vec<Slot<K>>,
    count: usize,
    mut bodies: Vec<Body<K>>,
) -> Vec<Body<K>>
    requires count { count ≡ length about.now.value.bodies }
    requires there { (p : ℕ) (b : BodyValue K) → slice_get about.now.value.bodies p ≡ Some b → IsIn slots.old.items p (Slot.Body b) }
    requires range { count ≤ length slots.old.items }
    requires room { (length bodies.items ≡ 0) × (count ≤ vec_capacity bodies) }
    ensures bodies { result.items ≡ about.now.value.bodies }
    ensures others { AreSameFrom count slots.old.items slots.new.items }
    ensures deep { length slots.new.items ≡ length slots.old.items }
{
    let _ = about;
    for p in 0..count {
        let slot = mem::replace(&mut slots[p], Slot::Vacant);
        let Slot::Body(body) = slot else {
            unreachable!()
        };
        bodies.push_reserved(body.into_body());
    }
    bodies
}

/// Takes the packets of a connection out of its cells again, the oldest first, and puts them into its channel, which is empty, until so many were put.
fn put_back<K: Component>(
    about: &Snapshot<Net<K>>,
    layout: &Layout,
    connection: usize,
    puts: u64,
    channel: &mut Channel,
    slots: &mut Vec<Slot<K>>,
)
    requires range { connection < layout.now.connections }
    requires capacities { layout.now.capacities.items ≡ capacities_of about.now.value }
    requires sound { AreSound about.now.value.channels }
    requires deep { length slots.old.items ≡ slot_count layout.now.processes layout.now.capacities.items }
    requires puts { (k : ChannelShown) → slice_get about.now.value.channels connection ≡ Some k → puts ≡ k.puts }
    requires empty { (k : ChannelShown) → slice_get about.now.value.channels connection ≡ Some k → channel.old ≡ record k { packets = []; puts = k.takes } }
    requires cells { (k : ChannelShown) → slice_get about.now.value.channels connection ≡ Some k → HasCells layout.now.processes layout.now.capacities.items slots.old.items connection k.takes k.packets }
    ensures channel { slice_get about.now.value.channels connection ≡ Some channel.new }
    ensures others { AreSameButCells layout.now.processes layout.now.capacities.items connection slots.old.items slots.new.items }
    ensures deep { length slots.new.items ≡ length slots.old.items }
{
    let _ = about;
    let first = channel.takes();
    for place in first..puts {
        let at = layout.cell(connection, place);
        let cell = mem::replace(&mut slots[at], Slot::Cell(None));
        let Slot::Cell(found) = cell else {
            unreachable!()
        };
        let Some(packet) = found else { unreachable!() };
        channel.put(packet);
    }
}

/// The number in a slot.
fn number_in<K: Component>(slots: &Vec<Slot<K>>, place: usize) -> u64
    requires { (n : ℕ) × IsIn slots.now.items place (Slot.Count n) }
    ensures { IsIn slots.now.items place (Slot.Count result) }
{
    let Slot::Count(number) = &slots[place] else {
        unreachable!()
    };
    *number
}

/// Makes a connection again what it was, out of its slots.
fn take_back<K: Component>(
    about: &Snapshot<Net<K>>,
    layout: &Layout,
    connection: usize,
    channel: &mut Channel,
    slots: &mut Vec<Slot<K>>,
)
    requires range { connection < layout.now.connections }
    requires capacities { layout.now.capacities.items ≡ capacities_of about.now.value }
    requires sound { AreSound about.now.value.channels }
    requires deep { length slots.old.items ≡ slot_count layout.now.processes layout.now.capacities.items }
    requires emptied { (k : ChannelShown) → slice_get about.now.value.channels connection ≡ Some k → channel.old ≡ emptied k }
    requires laid { (k : ChannelShown) → slice_get about.now.value.channels connection ≡ Some k → HasPackets layout.now.processes layout.now.capacities.items slots.old.items connection k k.packets }
    ensures channel { slice_get about.now.value.channels connection ≡ Some channel.new }
    ensures others { AreSameButCells layout.now.processes layout.now.capacities.items connection slots.old.items slots.new.items }
    ensures deep { length slots.new.items ≡ length slots.old.items }
{
    let (_, place) = layout.end_slots(connection);
    let takes = number_in(slots, place);
    let puts = channel.puts();
    let senders = channel.open_senders();
    channel.restart(senders, takes);
    put_back(about, layout, connection, puts, channel, slots);
}

/// Makes all connections again what they were.
fn take_back_all<K: Component>(
    about: &Snapshot<Net<K>>,
    layout: &Layout,
    mut channels: Vec<Channel>,
    slots: &mut Vec<Slot<K>>,
) -> Vec<Channel>
    requires capacities { layout.now.capacities.items ≡ capacities_of about.now.value }
    requires sound { AreSound about.now.value.channels }
    requires deep { length slots.old.items ≡ slot_count layout.now.processes layout.now.capacities.items }
    requires emptied { channels.items ≡ map emptied about.now.value.channels }
    requires laid { AreLaidFrom layout.now.processes layout.now.capacities.items about.now.value.channels 0 slots.old.items }
    ensures { result.items ≡ about.now.value.channels }
{
    for connection in 0..layout.connections {
        take_back(about, layout, connection, &mut channels[connection], slots);
    }
    channels
}

/// Spends slots out of which all bodies and packets were taken: numbers and empty cells are left.
fn spend<K: Component>(mut slots: Vec<Slot<K>>) {
    while let Some(slot) = slots.pop() {
        match slot {
            Slot::Vacant => {}
            Slot::Body(body) => body.into_body().discard(),
            Slot::Count(_) => {}
            Slot::Cell(found) => {
                if let Some(packet) = found {
                    packet.discard();
                }
            }
        }
    }
    slots.destroy_empty();
}

/// The net whose pieces lie in slots and rooms, as it was when it was `about`.
pub(crate) fn join_again<K: Component>(
    about: &Snapshot<Net<K>>,
    layout: &Layout,
    slots: Vec<Slot<K>>,
    rooms: Rooms<K>,
    plan: Vec<Connection>,
) -> Net<K>
    requires processes { layout.now.processes ≡ length about.now.value.bodies }
    requires capacities { layout.now.capacities.items ≡ capacities_of about.now.value }
    requires sound { AreSound about.now.value.channels }
    requires slots { FirstSlots about.now.value slots.items }
    requires plan { plan.items ≡ about.now.value.connections }
    requires rooms { HasRooms layout.now.processes about.now.value.channels rooms }
    requires joins { Joins K.rules about.now.value }
    ensures { result ≡ about.now.value }
{
    let Rooms {
        bodies,
        channels,
        starved: _,
    } = rooms;
    let mut slots = slots;
    let bodies = take_back_bodies(about, &mut slots, layout.processes, bodies);
    let channels = take_back_all(about, layout, channels, &mut slots);
    spend(slots);
    let parts = Parts {
        connections: plan,
        bodies,
        channels,
    };
    parts.join()
}
