//! What one line says, with each word as it stands there.
use flow_items::Text;

/// A process where a line names it, maybe with its kind.
#[derive(Drop)]
pub struct Mention {
    pub name: Text,
    pub kind: Option<Text>,
}

/// A port where a line names it, maybe with an element.
#[derive(Drop)]
pub struct PortMention {
    pub name: Text,
    pub element: Option<Text>,
}

/// A port where a connection names it: one of the process's kind, or the automatic one.
#[derive(Drop)]
pub enum EndMention {
    Port(PortMention),
    Automatic,
}

/// What a line says.
#[derive(Drop)]
pub enum Form {
    Header {
        version: u32,
    },
    Process {
        name: Text,
        kind: Text,
    },
    Connection {
        from: Mention,
        out: EndMention,
        capacity: Option<Text>,
        into: EndMention,
        to: Mention,
    },
    Initial {
        text: Text,
        into: PortMention,
        to: Mention,
    },
    Subnet {
        name: Text,
    },
    End,
    InPort {
        outer: Text,
        into: PortMention,
        to: Mention,
    },
    OutPort {
        from: Mention,
        out: PortMention,
        outer: Text,
    },
}
