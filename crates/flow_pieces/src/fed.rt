//! Components of a network whose files come and go piece by piece.

use crate::read_pieces::ReadPieces;
use crate::write_pieces::WritePieces;
use flow_component::{Answer, Component, Shape, Stop, Wish};
use flow_packet::Hands;
use std::alloc::AllocError;
use std::marker::Model;

/// What a component does in such a network.
#[derive(Drop)]
pub enum Role<K: Component> {
    Reader(ReadPieces),
    Writer(WritePieces),
    /// It has no file.
    Other(K),
}

/// A reader of pieces, a writer of pieces, or another component.
#[derive(Drop)]
pub struct Fed<K: Component> {
    role: Role<K>,
}

impl<K: Component> Model for Fed<K> {
    ghost use Rattle.flow_pieces.specs.Fed.{Fed};
    ghost use Rattle.flow_pieces.specs.FedRoles.{fed_of};

    ghost Value = { Fed K };

    ghost view = { λ f. fed_of f.role };
}

impl<K: Component> Fed<K> {
    ghost use Rattle.std.specs.Prelude.{◌≡◌, ◌≤◌, length, OnOk, OnErr};
    ghost use Rattle.flow_pieces.specs.declared.TheConstants.{PIECE};
    ghost use Rattle.flow_pieces.specs.FedRoles.{fed_of};
    ghost use Rattle.flow_pieces.specs.Tended.{IsTended, WantsPiece, IsReader, IsWriter, fed_given, fed_ended, fed_taken};

    /// The component in this role.
    pub fn of(role: Role<K>) -> Fed<K>
        ensures { result ≡ fed_of role }
    {
        Fed { role }
    }

    /// Its role.
    pub fn role(&self) -> &Role<K>
        ensures { fed_of result.now ≡ self.now }
    {
        &self.role
    }

    /// The reader is given a piece more. Without memory it is as it was.
    pub fn give(&mut self, piece: &[u8]) -> Result<(), AllocError>
        requires wants { WantsPiece self.old }
        requires few { length piece.now ≤ PIECE }
        ensures ok { OnOk result (self.new ≡ fed_given self.old piece.now) }
        ensures tended { OnOk result (IsTended self.old self.new) }
        ensures err { OnErr result (self.new ≡ self.old) }
    {
        match &mut self.role {
            Role::Reader(reader) => return reader.give(piece),
            Role::Writer(_) => unreachable!(),
            Role::Other(_) => unreachable!(),
        }
    }

    /// The reader knows that no piece will come any more.
    pub fn end_file(&mut self)
        requires { IsReader self.old }
        ensures ended { self.new ≡ fed_ended self.old }
        ensures tended { IsTended self.old self.new }
    {
        match &mut self.role {
            Role::Reader(reader) => reader.end_file(),
            Role::Writer(_) => unreachable!(),
            Role::Other(_) => unreachable!(),
        }
    }

    /// The writer's bytes were taken.
    pub fn let_go(&mut self)
        requires { IsWriter self.old }
        ensures taken { self.new ≡ fed_taken self.old }
        ensures tended { IsTended self.old self.new }
    {
        match &mut self.role {
            Role::Reader(_) => unreachable!(),
            Role::Writer(writer) => writer.let_go(),
            Role::Other(_) => unreachable!(),
        }
    }
}

impl<K: Component> Component for Fed<K> {
    ghost use Rattle.flow_pieces.specs.Fed.{fed_rules, fed_state, fed_told};
    ghost use Rattle.flow_pieces.specs.FedLaws.{fed_lawful};

    ghost rules = { fed_rules K.rules };

    ghost state_of = { fed_state K.state_of };

    ghost told_end = { fed_told K.told_end };

    ghost lawful = { fed_lawful K.rules K.lawful };

    fn shape(&self) -> Shape {
        match &self.role {
            Role::Reader(reader) => reader.shape(),
            Role::Writer(writer) => writer.shape(),
            Role::Other(component) => component.shape(),
        }
    }

    #[inline(always)]
    fn resume(&mut self, hands: &mut Hands, answer: Answer) -> Result<Wish, Stop> {
        match &mut self.role {
            Role::Reader(reader) => return reader.resume(hands, answer),
            Role::Writer(writer) => return writer.resume(hands, answer),
            Role::Other(component) => return component.resume(hands, answer),
        }
    }

    fn end(&mut self) {
        match &mut self.role {
            Role::Reader(reader) => reader.end(),
            Role::Writer(writer) => writer.end(),
            Role::Other(component) => component.end(),
        }
    }
}
