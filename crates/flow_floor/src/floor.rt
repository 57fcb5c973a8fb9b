//! The floor, its workers, and what they hold.
ghost use Rattle.std.specs.Prelude.{◌≡◌, ◌≤◌, length};
ghost use Rattle.flow_limits.specs.declared.TheConstants.{CONNECTION_LIMIT, PROCESS_LIMIT};
ghost use Rattle.flow_machine.specs.Joins.{IsPlanned};
ghost use Rattle.flow_ring.specs.Places.{slot_count, word_count};
ghost use Rattle.flow_floor.specs.Ends.{capacities_of};

use crate::board::{Lawful, Slot, View};
use crate::rack::Rack;
use crate::roll::Roll;
use atomic_table::{Seat, Table};
use flow_component::Component;
use flow_machine::{Block, Net, Over};
use flow_packet::Packet;
use flow_plan::Connection;
use flow_ring::Layout;
use std::alloc::Global;
use std::snapshot::Snapshot;

/// A network on which workers run.
pub struct Floor<K: Component> {
    pub(crate) table: Table<Slot<K>, View<K>, Snapshot<Net<K>>, Lawful, Global>,
    pub(crate) layout: Layout,
    pub ghost bodies: { length table.shared.key.value.bodies ≡ layout.processes },
    pub ghost channels: { length (capacities_of table.shared.key.value) ≡ layout.connections },
    pub ghost capacities: { layout.capacities.items ≡ capacities_of table.shared.key.value },
    pub ghost slots: { table.shared.table_id.slots ≡ slot_count layout.processes (capacities_of table.shared.key.value) },
    pub ghost words: { table.shared.table_id.words ≡ word_count layout.processes layout.connections },
    pub ghost small: { (layout.processes ≤ PROCESS_LIMIT) × (layout.connections ≤ CONNECTION_LIMIT) },
    /// The connections of the net's plan. They say who receives from each, and who sends into it.
    pub(crate) plan: Vec<Connection>,
    pub ghost planned: { plan.items ≡ table.shared.key.value.connections },
    pub ghost wired: { ∥ IsPlanned table.shared.key.value ∥₁ },
}

/// A worker of a floor.
#[derive(Drop)]
pub struct Worker<K: Component> {
    pub(crate) seat: Seat<Slot<K>, View<K>>,
    pub(crate) woken: Roll,
}

/// A body that a worker claimed. It must be spent.
pub struct Held<K: Component> {
    pub(crate) body: Rack<K>,
    pub(crate) process: usize,
    /// Whether its last thought since the claim found no memory.
    pub(crate) starved: bool,
}

pub enum Claim<K: Component> {
    Held(Held<K>),
    /// The word that the exchange read.
    NotReady(u64),
}

/// What a call for a turn came to. Nothing but `Made` changes the body.
pub enum Turned {
    /// One turn of the process was made, with this stamp, and every process that it may have unblocked was woken.
    Made(u32),
    /// Another worker is at the sending end of this connection, into which the turn sends, or which it closes or asks for its level; the word that the
    /// call read at the gate.
    Busy(u32, u64),
    /// What the process waits for, and the word that the call read of that connection; of a dormant process, that of the lowest input that it watches
    /// and that has an open sender.
    Blocked(Block, u64),
    /// It has ended or failed.
    Over(Over),
}

/// What a call for a burst came to. Nothing but `Made` changes the body.
pub enum Burst {
    /// So many turns of the process were made, with the stamps from this first one on, and every process that they may have unblocked was woken.
    Made { first: u32, count: u32 },
    /// As `Turned::Busy`.
    Busy(u32, u64),
    /// As `Turned::Blocked`.
    Blocked(Block, u64),
    /// As `Turned::Over`.
    Over(Over),
}

/// What an idle process saw at its stream inputs: a packet; no packet, and this word of the lowest that has an open sender; or that all are over.
pub(crate) enum Saw {
    Packet,
    Sender(u64),
    Over,
}

/// What an idle process found at its automatic input: a packet, which came out of this connection; no packet, and this word, with an open sender; or
/// that it is over, or that there is none.
pub(crate) enum Signalled {
    Packet(u32, Packet),
    Sender(u64),
    Over,
}

/// What an idle process does by what it saw: it takes this packet, which came out of this connection, at its automatic input, starts, goes to its end, or
/// is dormant, with this word of the lowest input that it watches and that has an open sender.
pub(crate) enum Idling {
    Signal(u32, Packet),
    Start,
    Finish,
    Dormant(u64),
}

/// What a look to receive came to.
pub(crate) enum Drawn {
    /// The level counts no packet that wasn't drawn; the word that the call read.
    Nothing(u64),
    /// The oldest packet that wasn't drawn, out of its cell, with its place.
    Packet(u64, Packet),
}

/// What a look to send came to.
pub(crate) enum Placed {
    /// The connection is full; the word that the call read.
    Full(u64),
    /// The packet is in the cell behind all others.
    Put,
}

/// What a send came to.
pub(crate) enum Sent {
    /// The connection is full; the word that the call read.
    Full(u64),
    /// The turn has this stamp.
    Stamped(u32),
}
