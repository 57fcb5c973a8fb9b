//! The pieces of a line, for whoever looks for a fault in it. Any bytes have pieces.
use crate::kinds::{Side, automatic};
use flow_parse::FIRST_VERSION;
use std::alloc::{AllocError, Global};

/// A line that is none of the forms is looked at no further: the longest form has fewer pieces.
const MOST: usize = 24;

/// A piece of a line: a token of the language, or what is none.
#[derive(Clone, Copy)]
pub enum Piece<'a> {
    Word(&'a [u8]),
    Arrow,
    Open,
    Close,
    OpenBracket,
    CloseBracket,
    /// `*IN` or `*OUT`, from version 2 on.
    Automatic(Side),
    /// A quoted text as it is spelled between its quotes, or to the line's end where it isn't closed.
    Quoted(&'a [u8]),
    /// A byte that begins no token.
    Other(u8),
}

pub fn is_word_byte(byte: u8) -> bool {
    byte.is_ascii_alphanumeric() || byte == b'_'
}

/// Whether a byte ends a line.
pub fn is_line_end(byte: &u8) -> bool {
    *byte == b'\n'
}

/// Whether a byte is a point.
pub fn is_point(byte: &u8) -> bool {
    *byte == b'.'
}

fn is_blank(byte: u8) -> bool {
    byte == b' ' || byte == b'\t'
}

/// The first bytes of a line, so many as it has.
pub fn first(line: &[u8], count: usize) -> &[u8] {
    line.split_at(count.min(line.len())).0
}

/// What is left of a line behind so many bytes.
pub fn behind(line: &[u8], count: usize) -> &[u8] {
    line.split_at(count.min(line.len())).1
}

/// What is left of a line behind its first blanks.
pub fn after_blanks(line: &[u8]) -> &[u8] {
    match line.iter().position(|byte| !is_blank(*byte)) {
        Some(start) => behind(line, start),
        None => b"",
    }
}

/// Whether a line says nothing.
pub fn is_remark(line: &[u8]) -> bool {
    match after_blanks(line).first() {
        Some(byte) => *byte == b'#',
        None => true,
    }
}

// The place of the quote that closes a text: one that no other follows, where two stand for one.
fn closing(text: &[u8]) -> Option<usize> {
    let mut found = None;
    for (place, byte) in text.iter().enumerate() {
        if *byte != b'\'' {
            if found.is_some() {
                return found;
            }
        } else if found.is_some() {
            found = None;
        } else {
            found = Some(place);
        }
    }
    found
}

// A quoted text behind its first quote, and what is left.
fn quoted(text: &[u8]) -> (Piece<'_>, &[u8]) {
    match closing(text) {
        Some(end) => (
            Piece::Quoted(first(text, end)),
            behind(text, end.saturating_add(1)),
        ),
        None => (Piece::Quoted(text), b""),
    }
}

/// The word with which a text begins, and what is left of it.
pub fn word(text: &[u8]) -> (&[u8], &[u8]) {
    match text.iter().position(|byte| !is_word_byte(*byte)) {
        Some(end) => (first(text, end), behind(text, end)),
        None => (text, b""),
    }
}

// The piece that a `*` begins in a file of version 2, and what is left of what stands behind it.
fn starred(text: &[u8]) -> (Piece<'_>, &[u8]) {
    let (name, after) = word(text);
    if name == behind(automatic(Side::Input), 1) {
        return (Piece::Automatic(Side::Input), after);
    }
    if name == behind(automatic(Side::Output), 1) {
        return (Piece::Automatic(Side::Output), after);
    }
    (Piece::Other(b'*'), text)
}

// The piece that a `-` begins, and what is left of what stands behind it.
fn dashed(text: &[u8]) -> (Piece<'_>, &[u8]) {
    match text.split_first() {
        Some((b'>', after)) => (Piece::Arrow, after),
        _ => (Piece::Other(b'-'), text),
    }
}

// The piece that a byte is by itself.
fn sign(byte: u8) -> Piece<'static> {
    match byte {
        b'(' => Piece::Open,
        b')' => Piece::Close,
        b'[' => Piece::OpenBracket,
        b']' => Piece::CloseBracket,
        _ => Piece::Other(byte),
    }
}

// The piece that a byte begins which is in no word, in a file of this version, and what is left of what stands behind it.
fn cut_sign(version: u32, byte: u8, more: &[u8]) -> (Piece<'_>, &[u8]) {
    match byte {
        b'\'' => quoted(more),
        b'-' => dashed(more),
        b'*' if version != FIRST_VERSION => starred(more),
        _ => (sign(byte), more),
    }
}

// The first piece of a line behind its blanks, in a file of this version, and what is left of it.
fn cut(version: u32, line: &[u8]) -> Option<(Piece<'_>, &[u8])> {
    let rest = after_blanks(line);
    let (byte, more) = rest.split_first()?;
    if is_word_byte(*byte) {
        let (word, after) = word(rest);
        return Some((Piece::Word(word), after));
    }
    Some(cut_sign(version, *byte, more))
}

/// The first piece of a line behind its blanks, and what is left of it.
pub fn first_piece(line: &[u8]) -> Option<(Piece<'_>, &[u8])> {
    cut(FIRST_VERSION, line)
}

/// The first pieces of a line in a file of this version, as many as a form can have and some more.
pub fn pieces(alloc: Global, version: u32, line: &[u8]) -> Result<Vec<Piece<'_>>, AllocError> {
    let mut found = Vec::new(alloc);
    let mut rest = line;
    for _ in 0..MOST {
        let Some((piece, after)) = cut(version, rest) else {
            return Ok(found);
        };
        found.push(piece)?;
        rest = after;
    }
    Ok(found)
}

/// What is left of a line from its first byte on that begins no token in a file of this version.
pub fn bad_rest(version: u32, line: &[u8]) -> Option<&[u8]> {
    let mut rest = line;
    for _ in line {
        let (piece, after) = cut(version, rest)?;
        if let Piece::Other(_) = piece {
            return Some(after_blanks(rest));
        }
        rest = after;
    }
    None
}
