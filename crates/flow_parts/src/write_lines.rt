//! The component that writes what it gets to a file.

ghost use Rattle.std.specs.Prelude.{◌≡◌, ◌++◌, ◌<◌, [], length, take, OnOk, OnErr};
ghost use Rattle.flow_packet.specs.Hands.{IsAtRoot};
ghost use Rattle.flow_component.specs.Resumes.{Resumes};
ghost use Rattle.flow_parts.specs.WriteLines.{rendered};

use flow_component::{Answer, Component, Port, Shape, Stop, Wish};
use flow_packet::{Hands, Kind, PacketId};
use std::alloc::{AllocError, Global};
use std::marker::Model;

/// Appends each packet to its bytes as a line, and drops it. In clauses it is the bytes.
///
/// The line of a Normal packet is its text, that of an Open packet `(` and its text, that of a Close
/// packet `)` and its text. The text of a packet in a chain isn't written.
#[derive(Drop)]
pub struct WriteLines {
    bytes: Vec<u8>,
}

impl Model for WriteLines {
    ghost use Rattle.std.specs.Prelude.{List, ℕ};

    ghost Value = { List ℕ };

    ghost view = { λ w. w.bytes.items };
}

fn try_append(bytes: &mut Vec<u8>, kind: Kind, text: &[u8]) -> Result<(), AllocError>
    ensures ok { OnOk result (bytes.new.items ≡ bytes.old.items ++ rendered kind text.now) }
    ensures kept { take (length bytes.old.items) bytes.new.items ≡ bytes.old.items }
{
    match kind {
        Kind::Normal => {}
        Kind::Open => bytes.push(b'(')?,
        Kind::Close => bytes.push(b')')?,
    }
    bytes.extend_from_slice(text)?;
    bytes.push(b'\n')?;
    Ok(())
}

// Without memory the bytes are as they were.
fn append(bytes: &mut Vec<u8>, kind: Kind, text: &[u8]) -> Result<(), AllocError>
    ensures ok { OnOk result (bytes.new.items ≡ bytes.old.items ++ rendered kind text.now) }
    ensures err { OnErr result (bytes.new.items ≡ bytes.old.items) }
{
    let before = bytes.len();
    let appended = try_append(bytes, kind, text);
    if appended.is_err() {
        bytes.truncate(before);
    }
    appended
}

impl WriteLines {
    ghost use Rattle.flow_parts.specs.WriteLines.{WriteLinesNext};

    /// The component with no bytes yet. Takes no memory.
    pub fn new(alloc: Global) -> WriteLines
        ensures { result ≡ [] }
    {
        WriteLines {
            bytes: Vec::new(alloc),
        }
    }

    /// The bytes that are written.
    pub fn written(&self) -> &[u8]
        ensures { result.now ≡ self.now }
    {
        &self.bytes
    }

    fn write(&mut self, hands: &mut Hands, id: PacketId) -> Result<Wish, Stop>
        requires { IsAtRoot hands.old.packets id }
        ensures { Resumes WriteLinesNext self.old hands.old (Answer.Got id) result self.new hands.new }
    {
        let Ok(()) = append(&mut self.bytes, hands.kind(id), hands.text(id)) else {
            return Err(Stop::NoMemory);
        };
        hands.drop_packet(id);
        Ok(Wish::Receive(Port(0)))
    }
}

impl Component for WriteLines {
    ghost use Rattle.flow_parts.specs.WriteLines.{write_lines_rules};
    ghost use Rattle.flow_parts.specs.WriteLinesLaws.{write_lines_lawful};

    ghost rules = { write_lines_rules };

    ghost lawful = { write_lines_lawful };

    fn shape(&self) -> Shape {
        Shape {
            inputs: 1,
            outputs: 0,
        }
    }

    #[inline(never)]
    fn resume(&mut self, hands: &mut Hands, answer: Answer) -> Result<Wish, Stop> {
        match answer {
            Answer::Start => Ok(Wish::Receive(Port(0))),
            Answer::Sent => Ok(Wish::Receive(Port(0))),
            Answer::Got(id) => self.write(hands, id),
            Answer::End => Ok(Wish::Deactivate),
            Answer::Level(_) => unreachable!(),
        }
    }

    fn end(&mut self) {}
}
