//! The value of a network file. The format is this project's own.
use flow_items::{Items, Text};
use flow_plan::PortRef;

/// The first version of the language.
pub const FIRST_VERSION: u32 = 1;

/// The second version, with automatic ports and greater capacities.
pub const SECOND_VERSION: u32 = 2;

/// The third version, with more kinds. Its lines are those of the second: what the main part of such a file has besides,
/// words for texts and the subnets of other files, is filled in before the file is read (`flow_fill`).
pub const THIRD_VERSION: u32 = 3;

/// What a line of a network file adds to its part. A process is named as its part names it; a port may
/// be given with an element, and a connection with a capacity: from 1 to FIRST_CAPACITY_LIMIT packets in
/// version 1, and to CAPACITY_LIMIT in a later one. There a connection may go from the automatic output,
/// `*OUT`, and to the automatic input, `*IN`.
#[derive(Debug, Drop)]
pub enum Statement {
    /// A connection from an output port to an input port.
    Connect {
        from: Text,
        out: PortRef,
        capacity: Option<u32>,
        to: Text,
        into: PortRef,
    },
    /// A text that is given to an input port before the network runs: Morrison's initial information
    /// packet.
    Initial {
        text: Text,
        to: Text,
        into: PortRef,
    },
    /// An input port of the subnet, which stands for an input port of one of its processes.
    InPort {
        outer: Text,
        to: Text,
        into: PortRef,
    },
    /// An output port of the subnet, which stands for an output port of one of its processes.
    OutPort {
        from: Text,
        out: PortRef,
        outer: Text,
    },
}

/// A part of a network file: its main part, or one subnet. Each process has its name and its kind, in
/// the order of their first mention; the statements stand in the order of their lines.
#[derive(Debug, Drop)]
pub struct NetPart {
    pub processes: Items<(Text, Text)>,
    pub statements: Items<Statement>,
}

/// The value of a network file: its version, the subnets under their names in the order in which they
/// begin, and the main part.
#[derive(Debug, Drop)]
pub struct NetText {
    pub version: u32,
    pub subnets: Items<(Text, NetPart)>,
    pub main: NetPart,
}
