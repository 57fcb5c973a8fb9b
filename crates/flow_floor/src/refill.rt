//! How connections get their packets back, where a floor is taken apart.
ghost use Rattle.std.specs.Prelude.{◌≡◌, ℕ, ◌+◌, ◌-◌, ◌^◌, ◌<◌, ◌≤◌, false, [], length, List, slice_index, slice_index_or, slice_set};
ghost use Rattle.std.specs.Mem.Slots.{slots_items, slots_filled, slots_len, IsFull};
ghost use Rattle.flow_limits.specs.declared.TheConstants.{RUN_LIMIT};
ghost use Rattle.flow_packet.specs.Tree.{Tree};
ghost use Rattle.flow_model.specs.Stands.{ChannelShown};
ghost use Rattle.flow_ring.specs.Spaced.{ranked};
ghost use Rattle.flow_floor.specs.declared.board.Slot.TheVariants as Slot;
ghost use Rattle.flow_ring.specs.Places.{slot_count, word_count};
ghost use Rattle.flow_floor.specs.Opening.{IsIn};
ghost use Rattle.flow_floor.specs.Shut.{AreEmpty, AreLeft, ChannelsIn, EachRests, HasItsCells, HoldsPackets, IsFullAt, RestsAs, TakesCells, with_found};

use crate::board::Slot;
use atomic_table::Closed;
use flow_component::Component;
use flow_machine::Channel;
use flow_packet::Packet;
use flow_ring::{Layout, senders};
use std::alloc::Global;

/// Takes the number out of a slot.
fn take_number<K: Component>(closed: &mut Closed<Slot<K>, Global>, place: usize) -> u64
    requires range { place < slots_len closed.old.slots }
    requires full { IsFullAt (slots_filled closed.old.slots) place }
    requires there { (n : ℕ) × IsIn (slots_items closed.old.slots) place (Slot.Count n) }
    ensures number { IsIn (slots_items closed.old.slots) place (Slot.Count result) }
    ensures taken { slots_filled closed.new.slots ≡ slice_set (slots_filled closed.old.slots) place false }
    ensures same { (slots_items closed.new.slots ≡ slots_items closed.old.slots) × (slots_len closed.new.slots ≡ slots_len closed.old.slots) × (closed.new.words ≡ closed.old.words) }
{
    let slot = closed.take(place);
    let Slot::Count(number) = slot else {
        unreachable!()
    };
    number
}

/// Puts the packet that was found in a cell, if there was one.
fn put_found(channel: &mut Channel, found: Option<Packet>)
    requires room { length channel.old.packets < channel.old.capacity }
    requires counted { channel.old.puts < 2 ^ 64 - 1 }
    ensures { channel.new ≡ with_found channel.old found }
{
    if let Some(packet) = found {
        channel.put(packet);
    }
}

/// Takes the packets of a connection out of its cells, the oldest first, and puts them into its channel, which is empty. The oldest is at the place that is
/// the channel's number of takes.
fn take_packets<K: Component>(
    closed: &mut Closed<Slot<K>, Global>,
    layout: &Layout,
    connection: usize,
    channel: &mut Channel,
)
    requires range { connection < layout.now.connections }
    requires deep { slots_len closed.old.slots ≡ slot_count layout.now.processes layout.now.capacities.items }
    requires cells { HasItsCells layout.now.processes layout.now.capacities.items connection (slots_filled closed.old.slots) }
    requires size { channel.old.capacity ≡ slice_index layout.now.capacities.items connection }
    requires empty { channel.old.packets ≡ [] }
    requires few { (channel.old.puts ≡ channel.old.takes) × (channel.old.takes ≤ RUN_LIMIT) }
    requires holds { (packets : List Tree) × HoldsPackets layout.now.processes layout.now.capacities.items (slots_items closed.old.slots) connection channel.old.takes packets }
    ensures packets { (packets : List Tree) → HoldsPackets layout.now.processes layout.now.capacities.items (slots_items closed.old.slots) connection channel.old.takes packets → channel.new ≡ record channel.old { packets = packets; puts = channel.old.takes + length packets } }
    ensures taken { TakesCells layout.now.processes layout.now.capacities.items connection (slots_filled closed.old.slots) (slots_filled closed.new.slots) }
    ensures same { (slots_items closed.new.slots ≡ slots_items closed.old.slots) × (slots_len closed.new.slots ≡ slots_len closed.old.slots) × (closed.new.words ≡ closed.old.words) }
{
    let oldest = channel.takes();
    for i in 0..channel.capacity() {
        let cell = layout.cell(connection, oldest + i as u64);
        let slot = closed.take(cell);
        let Slot::Cell(found) = slot else {
            unreachable!()
        };
        put_found(channel, found);
    }
}

/// A connection gets back what lies on the table: the open senders of its level word, its number of takes, and its packets.
fn refill<K: Component>(
    closed: &mut Closed<Slot<K>, Global>,
    layout: &Layout,
    connection: usize,
    channel: &mut Channel,
)
    requires range { connection < layout.now.connections }
    requires words { IsFull closed.old.words × (slots_len closed.old.words ≡ word_count layout.now.processes layout.now.connections) }
    requires deep { slots_len closed.old.slots ≡ slot_count layout.now.processes layout.now.capacities.items }
    requires rests { (k : ChannelShown) × RestsAs layout.now.processes layout.now.capacities.items (ranked (slots_items closed.old.words)) (slots_items closed.old.slots) connection k }
    requires left { AreLeft layout.now.processes layout.now.capacities.items connection (slots_filled closed.old.slots) }
    requires empty { (channel.old.packets ≡ []) × (channel.old.capacity ≡ slice_index layout.now.capacities.items connection) }
    ensures channel { (k : ChannelShown) → RestsAs layout.now.processes layout.now.capacities.items (ranked (slots_items closed.old.words)) (slots_items closed.old.slots) connection k → channel.new ≡ k }
    ensures left { AreLeft layout.now.processes layout.now.capacities.items (connection + 1) (slots_filled closed.new.slots) }
    ensures same { (slots_items closed.new.slots ≡ slots_items closed.old.slots) × (slots_len closed.new.slots ≡ slots_len closed.old.slots) × (closed.new.words ≡ closed.old.words) }
{
    let word = closed.word(layout.level_word(connection));
    let (puts_at, takes_at) = layout.end_slots(connection);
    let _puts = take_number(closed, puts_at);
    let takes = take_number(closed, takes_at);
    channel.restart(senders(word), takes);
    take_packets(closed, layout, connection, channel);
}

/// All connections get back what lies on the table.
pub(crate) fn refill_all<K: Component>(
    closed: &mut Closed<Slot<K>, Global>,
    layout: &Layout,
    mut channels: Vec<Channel>,
) -> Vec<Channel>
    requires words { IsFull closed.old.words × (slots_len closed.old.words ≡ word_count layout.now.processes layout.now.connections) }
    requires deep { slots_len closed.old.slots ≡ slot_count layout.now.processes layout.now.capacities.items }
    requires rest { EachRests layout.now.processes layout.now.capacities.items (ranked (slots_items closed.old.words)) (slots_items closed.old.slots) }
    requires left { AreLeft layout.now.processes layout.now.capacities.items 0 (slots_filled closed.old.slots) }
    requires empty { AreEmpty layout.now.capacities.items channels.items }
    ensures channels { ChannelsIn layout.now.processes layout.now.capacities.items (ranked (slots_items closed.old.words)) (slots_items closed.old.slots) result.items }
    ensures none { (k : ℕ) → k < slots_len closed.new.slots → slice_index_or (slots_filled closed.new.slots) k false ≡ false }
{
    for connection in 0..channels.len() {
        refill(closed, layout, connection, &mut channels[connection]);
    }
    channels
}
