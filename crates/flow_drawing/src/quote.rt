//! Texts as a drawing has them.
ghost use Rattle.std.specs.Prelude.{◌≡◌, ◌++◌, ◌<◌, chars, false, not, IfOk, OnOk};
ghost use Rattle.std.specs.Char.{encode_utf8};
ghost use Rattle.std.specs.List.{flat_map};
ghost use Rattle.flow_drawing.specs.Quotes.{dot_byte, drives, entity, hex_digit, is_between, is_plain, last_of, mermaid_byte, numbered, quoted, quoted_byte, shown, shown_byte, shown_bytes, shown_letters, stands, ReadsBack};

use std::alloc::{AllocError, Global};

/// The languages in which a drawing is spelled.
#[derive(Clone, Copy, Debug, PartialEq, Eq)]
pub enum Form {
    /// Mermaid, which many viewers of Markdown draw.
    Mermaid,
    /// DOT, the language of Graphviz.
    Dot,
}

fn is_between(least: u8, most: u8, byte: u8) -> bool
    ensures { result ≡ is_between least most byte }
{
    least <= byte && byte <= most
}

// A digit of a hexadecimal number.
fn hex_digit(digit: u8) -> u8
    requires { digit < 16 }
    ensures { result ≡ hex_digit digit }
{
    if digit < 10 { 48 + digit } else { 87 + digit }
}

// Whether a number of a character is within bounds.
fn is_within(least: u32, most: u32, code: u32) -> bool
    ensures { result ≡ is_between least most code }
{
    least <= code && code <= most
}

// Whether a character drives what shows it, a terminal above all.
fn drives(letter: char) -> bool
    ensures { result ≡ drives letter }
{
    let code = letter as u32;
    is_within(0x80, 0x9f, code)
        || code == 0x61c
        || is_within(0x200e, 0x200f, code)
        || is_within(0x2028, 0x202e, code)
        || is_within(0x2066, 0x2069, code)
}

// Whether a byte may stand for itself where a text is shown.
fn stands(may: bool, byte: u8) -> bool
    ensures { result ≡ stands may byte }
{
    if byte < 128 {
        is_between(32, 126, byte)
    } else {
        may
    }
}

// Appends the number of a byte.
fn put_numbered(out: &mut Vec<u8>, byte: u8) -> Result<(), AllocError>
    ensures { OnOk result (out.new.items ≡ out.old.items ++ numbered byte) }
{
    out.extend_from_slice(b"\\x")?;
    out.push(hex_digit(byte / 16))?;
    out.push(hex_digit(byte % 16))?;
    Ok(())
}

fn put_shown_byte(out: &mut Vec<u8>, may: bool, before: u8, byte: u8) -> Result<(), AllocError>
    ensures { OnOk result (out.new.items ≡ out.old.items ++ shown_byte may before byte) }
{
    // An x behind a backslash would begin a number.
    if stands(may, byte) && !(before == 92 && byte == 120) {
        out.push(byte)?;
        return Ok(());
    }
    put_numbered(out, byte)
}

// Appends bytes behind this one, and returns the last one.
fn put_shown_bytes(out: &mut Vec<u8>, may: bool, before: u8, bytes: &[u8]) -> Result<u8, AllocError>
    ensures bytes { OnOk result (out.new.items ≡ out.old.items ++ shown_bytes may before bytes.now) }
    ensures last { IfOk result (λ last. last ≡ last_of before bytes.now) }
{
    let mut last = before;
    for byte in bytes {
        put_shown_byte(out, may, last, *byte)?;
        last = *byte;
    }
    Ok(last)
}

// Appends a letter behind this byte, and returns its last byte.
fn put_shown_letter(out: &mut Vec<u8>, before: u8, letter: char) -> Result<u8, AllocError>
    ensures bytes { OnOk result (out.new.items ≡ out.old.items ++ shown_bytes (not (drives letter)) before (encode_utf8 letter)) }
    ensures last { IfOk result (λ last. last ≡ last_of before (encode_utf8 letter)) }
{
    let mut room = [0; 4];
    let spelled = letter.encode_utf8(&mut room);
    put_shown_bytes(out, !drives(letter), before, spelled.as_bytes())
}

fn put_shown_text(out: &mut Vec<u8>, text: &str) -> Result<(), AllocError>
    ensures { OnOk result (out.new.items ≡ out.old.items ++ shown_letters 0 (chars text.now)) }
{
    let mut last = 0;
    for letter in text.chars() {
        last = put_shown_letter(out, last, letter)?;
    }
    Ok(())
}

// A text that isn't UTF-8, by its bytes.
fn put_shown_odd(out: &mut Vec<u8>, text: &[u8]) -> Result<(), AllocError>
    ensures { OnOk result (out.new.items ≡ out.old.items ++ shown_bytes false 0 text.now) }
{
    put_shown_bytes(out, false, 0, text)?;
    Ok(())
}

// A text with each character that drives what shows it, each byte that is none of a text, and each x behind a backslash
// by its number.
fn shown(alloc: Global, text: &[u8]) -> Result<Vec<u8>, AllocError>
    ensures { IfOk result (λ seen. seen.items ≡ shown text.now) }
{
    let mut seen = Vec::new(alloc);
    match str::from_utf8(text) {
        Ok(text) => put_shown_text(&mut seen, text)?,
        Err(_) => put_shown_odd(&mut seen, text)?,
    }
    Ok(seen)
}

// Whether a byte means itself in a label of Mermaid.
fn is_plain(byte: u8) -> bool
    ensures { result ≡ is_plain byte }
{
    byte.is_ascii_alphanumeric()
        || is_between(44, 47, byte)
        || byte == 32
        || byte == 39
        || byte == 91
        || byte == 93
        || byte >= 128
}

fn put_entity(out: &mut Vec<u8>, byte: u8) -> Result<(), AllocError>
    ensures { OnOk result (out.new.items ≡ out.old.items ++ entity byte) }
{
    out.push(35)?;
    if byte >= 100 {
        out.push(48 + byte / 100)?;
    }
    out.push(48 + byte / 10 % 10)?;
    out.push(48 + byte % 10)?;
    out.push(59)?;
    Ok(())
}

fn put_mermaid_byte(out: &mut Vec<u8>, byte: u8) -> Result<(), AllocError>
    ensures { OnOk result (out.new.items ≡ out.old.items ++ mermaid_byte byte) }
{
    if is_plain(byte) {
        out.push(byte)?;
        Ok(())
    } else {
        put_entity(out, byte)
    }
}

fn put_dot_byte(out: &mut Vec<u8>, byte: u8) -> Result<(), AllocError>
    ensures { OnOk result (out.new.items ≡ out.old.items ++ dot_byte byte) }
{
    if byte == 38 {
        return out.extend_from_slice(b"&#38;");
    }
    if byte == 34 || byte == 92 {
        out.push(92)?;
    }
    out.push(byte)?;
    Ok(())
}

fn put_quoted_byte(out: &mut Vec<u8>, form: Form, byte: u8) -> Result<(), AllocError>
    ensures { OnOk result (out.new.items ≡ out.old.items ++ quoted_byte form byte) }
{
    match form {
        Form::Mermaid => put_mermaid_byte(out, byte),
        Form::Dot => put_dot_byte(out, byte),
    }
}

// Appends what is shown of a text, as it stands within the quotes of a label.
fn put_seen(out: &mut Vec<u8>, form: Form, seen: &[u8]) -> Result<(), AllocError>
    ensures { OnOk result (out.new.items ≡ out.old.items ++ flat_map (quoted_byte form) seen.now) }
{
    for byte in seen {
        put_quoted_byte(out, form, *byte)?;
    }
    Ok(())
}

/// Appends a text as it stands within the quotes of a label.
pub fn put_quoted(out: &mut Vec<u8>, form: Form, text: &[u8]) -> Result<(), AllocError>
    ensures { OnOk result (out.new.items ≡ out.old.items ++ quoted form text.now) }
{
    let seen = shown(*out.allocator(), text)?;
    put_seen(out, form, &seen)
}

/// Each text is read back from its quotes, whatever bytes it has.
pub fn a_quoted_text_reads_back()
    ensures { ReadsBack }
{}
