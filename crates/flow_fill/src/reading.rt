//! Reading a line from the left.
ghost use Rattle.std.specs.Prelude.{◌≡◌, ◌≤◌, ◌==◌, ℕ, List, ◌∷◌, ◌++◌, false, IfOk, MatchOption, length, option_map};
ghost use Rattle.std.specs.List.{prefix_len};
ghost use Rattle.std.specs.Str.{bytes_eq};
ghost use Rattle.flow_parse.specs.Names.{begins_with_letter, is_name};
ghost use Rattle.flow_parse.specs.Spelling.{DoesntBegin, doubled, is_blank, is_word_byte};
ghost use Rattle.flow_fill.specs.Cuts.{pairs};
ghost use Rattle.flow_fill.specs.Reading.{beside_at, begins_with, behind_arrow, behind_blanks, behind_word, is_blank_line, is_header, is_remark, text_from, quoted_at, use_line, word_at, word_line, word_line_of};

use crate::line::WordLine;
use flow_items::Text;
use flow_limits::NAME_LIMIT;
use flow_parse::is_reserved;
use std::alloc::{AllocError, Global};

fn is_blank_byte(b: u8) -> bool
    ensures { result ≡ is_blank b }
{
    b == b' ' || b == b'\t'
}

fn is_byte_of_word(b: u8) -> bool
    ensures { result ≡ is_word_byte b }
{
    b.is_ascii_alphanumeric() || b == b'_'
}

fn are(bytes: &[u8], others: &[u8]) -> bool
    ensures { result ≡ bytes_eq bytes.now others.now }
{
    bytes == others
}

fn after_blanks(bytes: &[u8]) -> &[u8]
    ensures { result.now ≡ behind_blanks bytes.now }
{
    let mut rest = bytes;
    'blanks: while !rest.is_empty() && is_blank_byte(rest[0]) {
        rest = &rest[1..];
    }
    rest
}

fn blank_line(bytes: &[u8]) -> bool
    ensures { result ≡ is_blank_line bytes.now }
{
    after_blanks(bytes).is_empty()
}

/// Whether a line is a remark.
pub fn remark(line: &[u8]) -> bool
    ensures { result ≡ is_remark line.now }
{
    let rest = after_blanks(line);
    rest.is_empty() || rest[0] == b'#'
}

#[tactic(auto, using(crate::proofs::Steps::word_within))]
fn word_len(bytes: &[u8]) -> usize
    ensures run { result ≡ prefix_len is_word_byte bytes.now }
    ensures most { result ≤ length bytes.now }
{
    bytes.iter().take_while(|b| is_byte_of_word(**b)).count()
}

// The word that bytes begin with behind blanks, and what stands behind it.
fn cut_word(bytes: &[u8]) -> (&[u8], &[u8])
    ensures word { result.0.now ≡ (word_at bytes.now).0 }
    ensures rest { result.1.now ≡ (word_at bytes.now).1 }
{
    let rest = after_blanks(bytes);
    let n = word_len(rest);
    (&rest[..n], &rest[n..])
}

/// Whether a line begins with this word.
pub fn begins(word: &[u8], line: &[u8]) -> bool
    ensures { result ≡ begins_with word.now line.now }
{
    let (first, _) = cut_word(line);
    are(first, word)
}

fn after_word<'a>(word: &[u8], bytes: &'a [u8]) -> Option<&'a [u8]>
    ensures { option_map (λ rest. rest.now) result ≡ behind_word word.now bytes.now }
{
    let (first, rest) = cut_word(bytes);
    if are(first, word) { Some(rest) } else { None }
}

fn after_arrow(bytes: &[u8]) -> Option<&[u8]>
    ensures { option_map (λ rest. rest.now) result ≡ behind_arrow bytes.now }
{
    let rest = after_blanks(bytes);
    if rest.len() >= 2 && rest[0] == b'-' && rest[1] == b'>' {
        Some(&rest[2..])
    } else {
        None
    }
}

// The text behind an opening quote, and what is left behind the closing one.
fn quoted<'a>(alloc: Global, bytes: &'a [u8]) -> Result<Option<(Text, &'a [u8])>, AllocError>
    ensures { IfOk result (λ found. MatchOption found
        ((text : List ℕ) × (bytes.now ≡ doubled text))
        (λ q. (bytes.now ≡ doubled q.0 ++ 39 ∷ q.1.now) × DoesntBegin (λ b. b == 39) q.1.now)) }
{
    let mut text = Text::new(alloc);
    let mut rest = bytes;
    'text: while !rest.is_empty() {
        let first = rest[0];
        let more = &rest[1..];
        if first != b'\'' {
            text.push(first)?;
            rest = more;
        } else if !more.is_empty() && more[0] == b'\'' {
            text.push(b'\'')?;
            rest = &more[1..];
        } else {
            return Ok(Some((text, more)));
        }
    }
    Ok(None)
}

fn cut_text<'a>(alloc: Global, bytes: &'a [u8]) -> Result<Option<(Text, &'a [u8])>, AllocError>
    ensures { IfOk result (λ found. pairs found ≡ text_from false bytes.now) }
{
    let found = quoted(alloc, bytes)?;
    Ok(found)
}

// The quoted text that bytes begin with behind blanks, and what stands behind it.
fn cut_quoted<'a>(alloc: Global, bytes: &'a [u8]) -> Result<Option<(Text, &'a [u8])>, AllocError>
    ensures { IfOk result (λ found. pairs found ≡ quoted_at bytes.now) }
{
    let rest = after_blanks(bytes);
    if rest.is_empty() || rest[0] != b'\'' {
        return Ok(None);
    }
    cut_text(alloc, &rest[1..])
}

fn letter_first(word: &[u8]) -> bool
    ensures { result ≡ begins_with_letter word.now }
{
    match word.first() {
        Some(first) => first.is_ascii_alphabetic(),
        None => false,
    }
}

fn is_a_name(word: &[u8]) -> bool
    ensures { result ≡ is_name word.now }
{
    letter_first(word) && word.len() <= NAME_LIMIT && !is_reserved(word)
}

// A word's line, behind its name and the text beside that.
fn word_line_behind(
    alloc: Global,
    name: &[u8],
    beside: Option<Text>,
    bytes: &[u8],
) -> Result<Option<WordLine>, AllocError>
    ensures { IfOk result (λ line. line ≡ word_line_of name.now beside bytes.now) }
{
    let Some(rest) = after_arrow(bytes) else {
        return Ok(None);
    };
    if !is_a_name(name) {
        return Ok(None);
    }
    let name = Text::from_slice(alloc, name)?;
    let rest = Text::from_slice(alloc, rest)?;
    Ok(Some(WordLine { name, beside, rest }))
}

/// The word's line that a line is.
pub fn read_word_line(alloc: Global, line: &[u8]) -> Result<Option<WordLine>, AllocError>
    ensures { IfOk result (λ read. read ≡ word_line line.now) }
{
    let Some(behind) = after_word(b"inport", line) else {
        return Ok(None);
    };
    let (name, behind) = cut_word(behind);
    match cut_quoted(alloc, behind)? {
        Some((beside, rest)) => word_line_behind(alloc, name, Some(beside), rest),
        None => word_line_behind(alloc, name, None, behind),
    }
}

/// The file that a line uses.
pub fn read_use_line(alloc: Global, line: &[u8]) -> Result<Option<Text>, AllocError>
    ensures { IfOk result (λ read. read ≡ use_line line.now) }
{
    let Some(behind) = after_word(b"use", line) else {
        return Ok(None);
    };
    let Some((file, rest)) = cut_quoted(alloc, behind)? else {
        return Ok(None);
    };
    if blank_line(rest) {
        Ok(Some(file))
    } else {
        Ok(None)
    }
}

/// Whether a line is the header of version 3.
pub fn header(line: &[u8]) -> bool
    ensures { result ≡ is_header line.now }
{
    let Some(behind) = after_word(b"flow", line) else {
        return false;
    };
    let (version, rest) = cut_word(behind);
    are(version, b"3") && blank_line(rest)
}
