//! The component that writes what it gets, and whose bytes are taken from it now and then.

ghost use Rattle.std.specs.Prelude.{◌≡◌, ◌++◌, ◌<◌, ◌≤◌, [], length, take, OnOk, OnErr};
ghost use Rattle.flow_packet.specs.Hands.{IsAtRoot};
ghost use Rattle.flow_component.specs.Resumes.{Resumes};
ghost use Rattle.flow_parts.specs.WriteLines.{rendered};

use crate::{KEPT_LIMIT, PIECE};
use flow_component::{Answer, Component, Port, Shape, Stop, Wish};
use flow_packet::{Hands, Kind, PacketId};
use flow_text::History;
use std::alloc::{AllocError, Global};
use std::marker::Model;

/// Appends each packet to its bytes as a line, as WriteLines does, and drops it. Where it has a piece of them it wants them
/// to be taken, and tells so as want of memory. In clauses it is all bytes, and which of them were taken.
#[derive(Drop)]
pub struct WritePieces {
    bytes: Vec<u8>,
    gone: History,
}

impl Model for WritePieces {
    ghost use Rattle.std.specs.Prelude.{◌≤◌, length};
    ghost use Rattle.flow_pieces.specs.WritePieces.{Gathered};
    ghost use Rattle.flow_pieces.specs.declared.TheConstants.{KEPT_LIMIT};

    ghost Value = { Gathered };

    ghost view = { λ w. record { gone = w.gone.bytes; has = w.bytes.items } };

    ghost invariant = { λ w. length w.bytes.items ≤ KEPT_LIMIT };
}

fn try_append(bytes: &mut Vec<u8>, kind: Kind, text: &[u8]) -> Result<(), AllocError>
    ensures ok { OnOk result (bytes.new.items ≡ bytes.old.items ++ rendered kind text.now) }
    ensures kept { take (length bytes.old.items) bytes.new.items ≡ bytes.old.items }
{
    match kind {
        Kind::Normal => {}
        Kind::Open => bytes.push(b'(')?,
        Kind::Close => bytes.push(b')')?,
    }
    bytes.extend_from_slice(text)?;
    bytes.push(b'\n')?;
    Ok(())
}

// Without memory the bytes are as they were.
fn append(bytes: &mut Vec<u8>, kind: Kind, text: &[u8]) -> Result<(), AllocError>
    ensures ok { OnOk result (bytes.new.items ≡ bytes.old.items ++ rendered kind text.now) }
    ensures err { OnErr result (bytes.new.items ≡ bytes.old.items) }
{
    let before = bytes.len();
    let appended = try_append(bytes, kind, text);
    if appended.is_err() {
        bytes.truncate(before);
    }
    appended
}

impl WritePieces {
    ghost use Rattle.flow_pieces.specs.WritePieces.{WritePiecesNext, is_full, all_taken};

    /// The component with no bytes yet. Takes no memory.
    pub fn new(alloc: Global) -> WritePieces
        ensures { result ≡ record { gone = []; has = [] } }
    {
        WritePieces {
            bytes: Vec::new(alloc),
            gone: History::none(),
        }
    }

    /// It has a piece.
    pub fn wants(&self) -> bool
        ensures { result ≡ is_full self.now }
    {
        self.bytes.len() >= PIECE
    }

    /// The bytes that it has.
    pub fn bytes(&self) -> &[u8]
        ensures bytes { result.now ≡ self.now.has }
        ensures few { length result.now ≤ KEPT_LIMIT }
    {
        &self.bytes
    }

    /// They were taken.
    pub fn let_go(&mut self)
        ensures { self.new ≡ all_taken self.old }
    {
        self.gone = self.gone.and(&self.bytes);
        self.bytes.truncate(0);
    }

    fn write(&mut self, hands: &mut Hands, id: PacketId) -> Result<Wish, Stop>
        requires { IsAtRoot hands.old.packets id }
        ensures { Resumes WritePiecesNext self.old hands.old (Answer.Got id) result self.new hands.new }
    {
        if self.wants() {
            return Err(Stop::NoMemory);
        }
        let Ok(()) = append(&mut self.bytes, hands.kind(id), hands.text(id)) else {
            return Err(Stop::NoMemory);
        };
        hands.drop_packet(id);
        Ok(Wish::Receive(Port(0)))
    }
}

impl Component for WritePieces {
    ghost use Rattle.flow_pieces.specs.WritePieces.{write_pieces_rules};
    ghost use Rattle.flow_pieces.specs.WritePiecesLaws.{write_pieces_lawful};

    ghost rules = { write_pieces_rules };

    ghost lawful = { write_pieces_lawful };

    fn shape(&self) -> Shape {
        Shape {
            inputs: 1,
            outputs: 0,
        }
    }

    #[inline(never)]
    fn resume(&mut self, hands: &mut Hands, answer: Answer) -> Result<Wish, Stop> {
        match answer {
            Answer::Start => Ok(Wish::Receive(Port(0))),
            Answer::Sent => Ok(Wish::Receive(Port(0))),
            Answer::Got(id) => self.write(hands, id),
            Answer::End => Ok(Wish::Deactivate),
            Answer::Level(_) => unreachable!(),
        }
    }

    fn end(&mut self) {}
}
