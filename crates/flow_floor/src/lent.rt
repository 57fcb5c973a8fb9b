//! What a worker changes in the slot that it took last, where that lies: a slot is as large as a body, and isn't moved for a number or a packet.
ghost use Rattle.std.specs.Prelude.{◌≡◌, ℕ, ◌+◌, ◌<◌, ◌^◌, ◌∷◌, None, Some};
ghost use Rattle.atomic_table.specs.Table.{rest};
ghost use Rattle.flow_packet.specs.Tree.{Tree};
ghost use Rattle.flow_floor.specs.Lent.{Changes};
ghost use Rattle.flow_floor.specs.declared.board.Slot.TheVariants as Slot;

use crate::board::{Slot, View};
use crate::floor::Floor;
use atomic_table::Seat;
use flow_component::Component;
use flow_packet::Packet;
use std::mem;

/// Counts the number in a slot up by one. What it was.
#[inline(always)]
fn counted_up<K: Component>(slot: &mut Slot<K>) -> u64
    requires { (n : ℕ) × (n + 1 < 2 ^ 64) × (slot.old ≡ Slot.Count n) }
    ensures { (slot.old ≡ Slot.Count result) × (slot.new ≡ Slot.Count (result + 1)) }
{
    let Slot::Count(number) = slot else {
        unreachable!()
    };
    let was = *number;
    *number = was + 1;
    was
}

/// The packet in a cell, out of it.
#[inline(always)]
fn taken_out<K: Component>(slot: &mut Slot<K>) -> Packet
    requires { (packet : Tree) × (slot.old ≡ Slot.Cell (Some packet)) }
    ensures { (slot.old ≡ Slot.Cell (Some result)) × (slot.new ≡ Slot.Cell None) }
{
    let Slot::Cell(cell) = slot else {
        unreachable!()
    };
    let found = cell.take();
    let Some(packet) = found else { unreachable!() };
    packet
}

/// Puts a packet into a cell, which is empty.
#[inline(always)]
fn put_into<K: Component>(slot: &mut Slot<K>, packet: Packet)
    requires { slot.old ≡ Slot.Cell None }
    ensures { slot.new ≡ Slot.Cell (Some packet) }
{
    let Slot::Cell(cell) = slot else {
        unreachable!()
    };
    let old = mem::replace(cell, Some(packet));
    let None = old else { unreachable!() };
}

impl<K: Component> Floor<K> {
    /// Counts the number in the slot that the seat took last up by one. What it was.
    #[inline(always)]
    pub(crate) fn count_up(&self, seat: &mut Seat<Slot<K>, View<K>>, slot: usize) -> u64
        requires table { seat.old.table_id ≡ self.now.table.shared.table_id }
        requires number { (n : ℕ) × (n + 1 < 2 ^ 64) × (seat.old.me.1 ≡ (slot, Slot.Count n) ∷ rest seat.old.me.1) }
        ensures { Changes seat.old seat.new slot (Slot.Count result) (Slot.Count (result + 1)) }
    {
        counted_up(seat.slot_mut(&self.table.shared, slot))
    }

    /// The packet in the cell that the seat took last, out of it.
    #[inline(always)]
    pub(crate) fn take_out(&self, seat: &mut Seat<Slot<K>, View<K>>, slot: usize) -> Packet
        requires table { seat.old.table_id ≡ self.now.table.shared.table_id }
        requires packet { (packet : Tree) × (seat.old.me.1 ≡ (slot, Slot.Cell (Some packet)) ∷ rest seat.old.me.1) }
        ensures { Changes seat.old seat.new slot (Slot.Cell (Some result)) (Slot.Cell None) }
    {
        taken_out(seat.slot_mut(&self.table.shared, slot))
    }

    /// Puts a packet into the cell that the seat took last, which is empty.
    #[inline(always)]
    pub(crate) fn put_in(&self, seat: &mut Seat<Slot<K>, View<K>>, slot: usize, packet: Packet)
        requires table { seat.old.table_id ≡ self.now.table.shared.table_id }
        requires empty { seat.old.me.1 ≡ (slot, Slot.Cell None) ∷ rest seat.old.me.1 }
        ensures { Changes seat.old seat.new slot (Slot.Cell None) (Slot.Cell (Some packet)) }
    {
        put_into(seat.slot_mut(&self.table.shared, slot), packet);
    }
}
