//! What a line of a network file says, as far as a fault is about it: which processes and ports it mentions.
use crate::kinds::{Side, automatic};
use crate::pieces::{Piece, is_remark, pieces};
use crate::words::{Reserved, reserved_word};
use std::alloc::{AllocError, Global};

/// Which form a line is.
#[derive(Clone, Copy, PartialEq, Eq)]
pub enum Tag {
    Header,
    Process,
    Connection,
    Initial,
    OuterInput,
    OuterOutput,
    Subnet,
    End,
    Other,
}

/// A process as a line mentions it, maybe with its kind, and with the port and its element that stand beside it. An
/// automatic port has its name with the `*`.
#[derive(Clone, Copy)]
pub struct Mention<'a> {
    pub process: &'a [u8],
    pub kind: Option<&'a [u8]>,
    pub port: &'a [u8],
    pub element: Option<&'a [u8]>,
}

/// What a line says: the name of its subnet or outer port, or the version of a header; its process before the arrow, its
/// capacity, and its process behind the arrow.
#[derive(Clone, Copy)]
pub struct Said<'a> {
    pub tag: Tag,
    pub name: &'a [u8],
    pub from: Option<Mention<'a>>,
    pub capacity: Option<&'a [u8]>,
    pub to: Option<Mention<'a>>,
}

impl<'a> Said<'a> {
    /// What the line mentions on a side of its arrow.
    pub fn mention(&self, side: Side) -> Option<Mention<'a>> {
        match side {
            Side::Output => self.from,
            Side::Input => self.to,
        }
    }
}

// The pieces of a line that are left.
#[derive(Drop)]
struct Rest<'p, 'a> {
    left: &'p [Piece<'a>],
}

impl<'p, 'a> Rest<'p, 'a> {
    fn word(&mut self) -> Option<&'a [u8]> {
        match self.left {
            [Piece::Word(word), more @ ..] => {
                self.left = more;
                Some(*word)
            }
            _ => None,
        }
    }

    fn arrow(&mut self) -> Option<()> {
        match self.left {
            [Piece::Arrow, more @ ..] => {
                self.left = more;
                Some(())
            }
            _ => None,
        }
    }

    // A word in parentheses, where they come next.
    fn parenthesized(&mut self) -> Option<&'a [u8]> {
        match self.left {
            [Piece::Open, Piece::Word(word), Piece::Close, more @ ..] => {
                self.left = more;
                Some(*word)
            }
            _ => None,
        }
    }

    // A word in brackets, where they come next.
    fn bracketed(&mut self) -> Option<&'a [u8]> {
        match self.left {
            [
                Piece::OpenBracket,
                Piece::Word(word),
                Piece::CloseBracket,
                more @ ..,
            ] => {
                self.left = more;
                Some(*word)
            }
            _ => None,
        }
    }

    // The name of a port, maybe of an automatic one.
    fn port(&mut self) -> Option<&'a [u8]> {
        match self.left {
            [Piece::Automatic(side), more @ ..] => {
                self.left = more;
                Some(automatic(*side))
            }
            _ => self.word(),
        }
    }

    // A process before the arrow, which stands before its port.
    fn sender(&mut self) -> Option<Mention<'a>> {
        let process = self.word()?;
        let kind = self.parenthesized();
        let port = self.port().unwrap_or(b"");
        let element = self.bracketed();
        Some(Mention {
            process,
            kind,
            port,
            element,
        })
    }

    // A process behind the arrow, which stands behind its port.
    fn receiver(&mut self) -> Option<Mention<'a>> {
        let port = self.port()?;
        let element = self.bracketed();
        let process = self.word()?;
        let kind = self.parenthesized();
        Some(Mention {
            process,
            kind,
            port,
            element,
        })
    }

    fn named(&mut self, tag: Tag) -> Said<'a> {
        let name = self.word().unwrap_or(b"");
        let _ = self.arrow();
        let to = self.receiver();
        Said {
            tag,
            name,
            from: None,
            capacity: None,
            to,
        }
    }

    fn header(&mut self) -> Said<'a> {
        Said {
            tag: Tag::Header,
            name: self.word().unwrap_or(b""),
            ..NOTHING
        }
    }

    // A line that begins with a text.
    fn initial(&mut self) -> Said<'a> {
        let _ = self.arrow();
        Said {
            tag: Tag::Initial,
            to: self.receiver(),
            ..NOTHING
        }
    }

    fn outer_output(&mut self) -> Said<'a> {
        let from = self.sender();
        let _ = self.arrow();
        let name = self.word().unwrap_or(b"");
        Said {
            tag: Tag::OuterOutput,
            name,
            from,
            capacity: None,
            to: None,
        }
    }

    // A line that begins with a process.
    fn process(&mut self) -> Said<'a> {
        let from = self.sender();
        let tag = match self.arrow() {
            Some(()) => Tag::Connection,
            None => Tag::Process,
        };
        let capacity = self.parenthesized();
        let to = self.receiver();
        Said {
            tag,
            name: b"",
            from,
            capacity,
            to,
        }
    }
}

const NOTHING: Said<'static> = Said {
    tag: Tag::Other,
    name: b"",
    from: None,
    capacity: None,
    to: None,
};

// What a line says that begins with this word of the language.
fn said_behind<'a>(word: Reserved, left: &[Piece<'a>]) -> Said<'a> {
    let mut rest = Rest { left };
    match word {
        Reserved::Flow => rest.header(),
        Reserved::Subnet => rest.named(Tag::Subnet),
        Reserved::End => Said {
            tag: Tag::End,
            ..NOTHING
        },
        Reserved::Inport => rest.named(Tag::OuterInput),
        Reserved::Outport => rest.outer_output(),
    }
}

// What the pieces of a line say.
fn said_of<'a>(pieces: &[Piece<'a>]) -> Said<'a> {
    match pieces {
        [Piece::Word(word), left @ ..] => match reserved_word(word) {
            Some(word) => said_behind(word, left),
            None => Rest { left: pieces }.process(),
        },
        [Piece::Quoted(_), left @ ..] => Rest { left }.initial(),
        _ => NOTHING,
    }
}

/// What a line says in a file of this version.
pub fn said_by(alloc: Global, version: u32, line: &[u8]) -> Result<Said<'_>, AllocError> {
    if is_remark(line) {
        return Ok(NOTHING);
    }
    let pieces = pieces(alloc, version, line)?;
    Ok(said_of(pieces.as_slice()))
}
