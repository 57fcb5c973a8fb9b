//! The table that the workers share. In their order the words are the n processes', the m levels, the m gates, the clock and the live word; the layout
//! says how far apart they lie. The slots are the n bodies, the m numbers of puts, the m numbers of takes, and the cells of each connection.

use crate::rack::Rack;
use atomic_table::TableRule;
use flow_component::Component;
use flow_machine::{Body, Net};
use flow_packet::Packet;
use std::collections::LinkedList;
use std::snapshot::Snapshot;

/// What lies in a slot.
pub enum Slot<K: Component> {
    /// Nothing, while a worker has what lies there.
    Vacant,
    Body(Rack<K>),
    /// How many packets were put, or taken.
    Count(u64),
    /// A cell, with the packet in it.
    Cell(Option<Packet>),
}

/// What a step read: the word by its number in their order, the number, whether the seat was at the sending end of a connection then, and its number of
/// steps after it.
pub struct Look {
    pub word: u64,
    pub read: u64,
    pub holding: bool,
    pub at: u64,
}

/// The end of a connection at which a seat sends, and how far it has come there.
pub struct Sending {
    pub connection: u64,
    /// The packets in the cells behind the machine's last one, the oldest first. The turns that send them aren't stamped.
    pub placed: LinkedList<Packet>,
    /// The place of the last of these, while its cell is with the seat, and the number of puts.
    pub out: Option<u64>,
    /// How many puts are stamped that the level doesn't count yet.
    pub unpublished: u64,
    /// How many closes are stamped whose senders the level word still counts.
    pub unsubtracted: u64,
    /// The level that it read since it came, or since it last put a packet, to be told it.
    pub learnt: Option<u64>,
}

/// The end of a connection at which a seat receives, and how far it has come there.
pub struct Receiving {
    pub connection: u64,
    /// The machine's oldest packets there, in their order, which are out of their cells. The turns that receive them aren't stamped.
    pub drawn: LinkedList<Packet>,
    /// The place of the last of these, while its cell is with the seat, and the number of takes.
    pub out: Option<u64>,
    /// How many takes are stamped that the level still counts.
    pub unwithdrawn: u64,
}

/// What a seat knows. No value of it is made.
pub struct View<K: Component> {
    /// Its shares of the right to be a seat: all seats together have `WORKER_LIMIT`.
    pub shares: u64,
    /// The process that it holds, with its body as the machine has it.
    pub held: Option<(u64, Body<K>)>,
    /// Where it sends.
    pub sending: Option<Sending>,
    /// Where it receives.
    pub receiving: Option<Receiving>,
    /// Its turns: stamp and process.
    pub made: LinkedList<(u64, u64)>,
    /// The levels that it looked at for the present wish of its process, each with the word, and its number of steps after it.
    pub seen: LinkedList<Look>,
    /// The processes that it noted for waking.
    pub noted: LinkedList<u64>,
    /// The tokens that it has to give to a process, or to the live word.
    pub spare: u64,
    pub read_zero: bool,
    pub steps: u64,
    pub look: Look,
    /// The processes that it asked for, each time that it claimed one, and those that it made ready.
    pub asked: LinkedList<u64>,
    pub readied: LinkedList<u64>,
}

pub struct Lawful;

impl<K: Component> TableRule<Slot<K>, View<K>, Snapshot<Net<K>>> for Lawful {
    ghost use Rattle.flow_limits.specs.declared.TheConstants.{WORKER_LIMIT};
    ghost use Rattle.flow_floor.specs.Rule.{TableLaw};
    ghost use Rattle.flow_floor.specs.Seats.{newcomer};

    ghost holds = { λ key. TableLaw K.rules key.value };

    ghost first = { λ _. newcomer WORKER_LIMIT };
}
