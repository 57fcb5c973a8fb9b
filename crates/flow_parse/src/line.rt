//! A line, cut into tokens.
ghost use Rattle.std.specs.Prelude.{◌≡◌, ℕ, List, ◌∷◌, ◌++◌, ◌<◌, ◌==◌, false, drop, length, take_while, MatchOption, IfOk, IsTrue, ◌↔◌};
ghost use Rattle.flow_parse.specs.Files.{IsRemark, Tells};
ghost use Rattle.flow_parse.specs.Spelling.{is_blank, is_word_byte, doubled, Blank, DoesntBegin, CutsAutomatic, Cuts, Takes, Reads};

use crate::form::Form;
use crate::row::Row;
use crate::same::are;
use crate::stop::LineStop;
use crate::token::Token;
use crate::value::SECOND_VERSION;
use flow_items::Text;
use std::alloc::{AllocError, Global};
use std::marker::Model;

fn is_blank_byte(b: u8) -> bool
    ensures { result ≡ is_blank b }
{
    b == b' ' || b == b'\t'
}

fn is_byte_of_word(b: u8) -> bool
    ensures { result ≡ is_word_byte b }
{
    b.is_ascii_alphanumeric() || b == b'_'
}

fn after_blanks(bytes: &[u8]) -> &[u8]
    ensures skipped { (blanks : List ℕ) × (bytes.now ≡ blanks ++ result.now) × Blank blanks }
    ensures stops { DoesntBegin is_blank result.now }
{
    let mut rest = bytes;
    'blanks: while !rest.is_empty() && is_blank_byte(rest[0]) {
        rest = &rest[1..];
    }
    rest
}

fn word_len(bytes: &[u8]) -> usize
    ensures { result ≡ length (take_while is_word_byte bytes.now) }
{
    bytes.iter().take_while(|b| is_byte_of_word(**b)).count()
}

/// The text behind an opening quote, and what is left behind the closing one.
fn quoted<'a>(alloc: Global, bytes: &'a [u8]) -> Result<Option<(Text, &'a [u8])>, AllocError>
    ensures { IfOk result (λ found. MatchOption found
        ((text : List ℕ) × (bytes.now ≡ doubled text))
        (λ q. (bytes.now ≡ doubled q.0 ++ 39 ∷ q.1.now) × DoesntBegin (λ b. b == 39) q.1.now)) }
{
    let mut text = Text::new(alloc);
    let mut rest = bytes;
    'text: while !rest.is_empty() {
        let first = rest[0];
        let more = &rest[1..];
        if first != b'\'' {
            text.push(first)?;
            rest = more;
        } else if !more.is_empty() && more[0] == b'\'' {
            text.push(b'\'')?;
            rest = &more[1..];
        } else {
            return Ok(Some((text, more)));
        }
    }
    Ok(None)
}

/// The automatic port that a `*` with these bytes behind it is, and what is left of them.
fn automatic(bytes: &[u8]) -> Option<(Token, &[u8])>
    ensures { CutsAutomatic bytes.now result }
{
    let n = word_len(bytes);
    let name = &bytes[..n];
    if are(name, b"IN") {
        return Some((Token::AutomaticInput, &bytes[n..]));
    }
    if are(name, b"OUT") {
        return Some((Token::AutomaticOutput, &bytes[n..]));
    }
    None
}

/// Cuts off the token that begins here, in a file of this version.
fn cut<'a>(alloc: Global, version: u32, bytes: &'a [u8]) -> Result<(Token, &'a [u8]), LineStop>
    requires some { 0 < length bytes.now }
    requires not_blank { DoesntBegin is_blank bytes.now }
    ensures { Cuts version bytes.now result }
{
    let first = bytes[0];
    let more = &bytes[1..];
    if first == b'(' {
        return Ok((Token::Open, more));
    }
    if first == b')' {
        return Ok((Token::Close, more));
    }
    if first == b'[' {
        return Ok((Token::OpenBracket, more));
    }
    if first == b']' {
        return Ok((Token::CloseBracket, more));
    }
    if first == b'-' {
        if !more.is_empty() && more[0] == b'>' {
            return Ok((Token::Arrow, &more[1..]));
        }
        return Err(LineStop::Byte);
    }
    if first == b'\'' {
        return match quoted(alloc, more)? {
            Some((text, rest)) => Ok((Token::Quoted(text), rest)),
            None => Err(LineStop::Quote),
        };
    }
    if first == b'*' && version >= SECOND_VERSION {
        return match automatic(more) {
            Some(cut) => Ok(cut),
            None => Err(LineStop::Byte),
        };
    }
    if !is_byte_of_word(first) {
        return Err(LineStop::Byte);
    }
    let n = word_len(bytes);
    let word = Text::from_slice(alloc, &bytes[..n])?;
    Ok((Token::Word(word), &bytes[n..]))
}

/// What is left of a line.
#[derive(Drop)]
pub struct Line<'a> {
    rest: &'a [u8],
}

impl<'a> Model for Line<'a> {
    ghost use Rattle.std.specs.Prelude.{ℕ, List};

    ghost Value = { List ℕ };

    ghost view = { λ l. l.rest.now };
}

impl<'a> Line<'a> {
    pub fn new(bytes: &'a [u8]) -> Line<'a>
        ensures { result ≡ bytes.now }
    {
        Line { rest: bytes }
    }

    /// Takes the next token, if the line has one.
    pub fn next_token(&mut self, alloc: Global, version: u32) -> Result<Option<Token>, LineStop>
        ensures { Takes version self.old self.new result }
    {
        let rest = after_blanks(self.rest);
        if rest.is_empty() {
            return Ok(None);
        }
        let (token, rest) = cut(alloc, version, rest)?;
        self.rest = rest;
        Ok(Some(token))
    }
}

/// The tokens of a line, in a file of this version.
pub fn tokens(alloc: Global, version: u32, line: &[u8]) -> Result<Row, LineStop>
    ensures { Reads version line.now result }
{
    let mut line = Line::new(line);
    let mut tokens = Row::new(alloc);
    'row: while let Some(token) = line.next_token(alloc, version)? {
        tokens.push(token)?;
    }
    Ok(tokens)
}

fn is_remark(line: &[u8]) -> bool
    ensures { IsTrue result ↔ IsRemark line.now }
{
    let rest = after_blanks(line);
    rest.is_empty() || rest[0] == b'#'
}

/// What a line says, in a file of this version. A remark says nothing.
pub fn read_line(alloc: Global, version: u32, line: &[u8]) -> Result<Option<Form>, LineStop>
    ensures { Tells version line.now result }
{
    if is_remark(line) {
        return Ok(None);
    }
    let row = tokens(alloc, version, line)?;
    match row.form() {
        Some(form) => Ok(Some(form)),
        None => Err(LineStop::Form),
    }
}
