//! What a builder holds of a network that isn't whole yet.
use flow_items::{Items, Text};
use flow_plan::PortSpec;

/// An element of a port, by the port's place among all ports of the draft.
#[derive(Clone, Copy)]
pub struct End {
    pub port: u32,
    pub element: u32,
}

/// What an element is bound to.
#[derive(Clone, Copy)]
pub enum Binding {
    /// To nothing yet.
    Free,
    /// An input that receives from the connection of this number.
    Receives(u32),
    /// An output that sends to the connection of this number, as its sender of this place.
    Sends(u32, u32),
    /// An input that has the text of this place among its process's.
    Given(u64),
}

/// A port of a process, with what each of its elements is bound to. An array has all its elements from
/// the start, every other port the one.
#[derive(Drop)]
pub struct DraftPort {
    pub process: u32,
    pub input: bool,
    pub place: u32,
    pub spec: PortSpec,
    pub elements: Items<Binding>,
}

/// A process, with the texts that it was given in the order of the calls.
#[derive(Drop)]
pub struct DraftProcess {
    pub number: u32,
    pub name: Text,
    pub kind: Text,
    pub texts: Items<(End, Text)>,
}

/// A connection into an element, with its senders in the order of the calls.
#[derive(Drop)]
pub struct Link {
    pub into: End,
    pub capacity: Option<u32>,
    pub senders: Items<End>,
}
