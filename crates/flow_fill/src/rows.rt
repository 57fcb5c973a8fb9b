//! Lines, one after another.
ghost use Rattle.std.specs.Prelude.{◌≡◌, ◌≤◌, [], ◌∷◌, ◌++◌, OnOk, IfOk, IfSome, IfNone, length, map, option_map};
ghost use Rattle.flow_parse.specs.Spelling.{doubled};
ghost use Rattle.flow_fill.specs.Faults.{IsTooLong};
ghost use Rattle.flow_fill.specs.Reading.{use_line};
ghost use Rattle.flow_fill.specs.Filling.{ended, filled_line, filled_lines, given_text, initial_line, is_third, main_line, used_line, place_after, text_for, text_of, word_here, words_from, words_in};

use crate::line::WordLine;
use crate::place::Place;
use crate::reading::{begins, header, read_use_line, read_word_line, remark};
use crate::word::{FileWord, Given};
use flow_items::Text;
use flow_limits::FILE_LIMIT;
use std::alloc::{AllocError, Global};

/// Whether these are the lines of a file of version 3.
pub fn third(lines: &[Vec<u8>]) -> bool
    ensures { result ≡ is_third (map (λ line. line.items) lines.now) }
{
    'lines: for line in lines {
        let line = line.as_slice();
        if !remark(line) {
            return header(line);
        }
    }
    false
}

impl Place {
    /// Where the next line stands.
    pub fn after(self, line: &[u8]) -> Place
        ensures { result ≡ place_after self line.now }
    {
        match self {
            Place::Head => behind_head(line),
            Place::Main => {
                if begins(b"subnet", line) {
                    Place::Inside
                } else {
                    Place::Main
                }
            }
            Place::Inside => {
                if begins(b"end", line) {
                    Place::Main
                } else {
                    Place::Inside
                }
            }
            Place::Other => Place::Other,
        }
    }
}

fn behind_head(line: &[u8]) -> Place
    ensures { result ≡ place_after Place.Head line.now }
{
    if remark(line) {
        Place::Head
    } else if header(line) {
        Place::Main
    } else {
        Place::Other
    }
}

// A byte of a quoted text, twice where it is a quote.
fn put_byte(out: &mut Vec<u8>, byte: u8) -> Result<(), AllocError>
    ensures { OnOk result (out.new.items ≡ out.old.items ++ doubled (byte ∷ [])) }
{
    if byte == b'\'' {
        return out.extend_from_slice(b"''");
    }
    out.push(byte)?;
    Ok(())
}

fn put_doubled(out: &mut Vec<u8>, text: &[u8]) -> Result<(), AllocError>
    ensures { OnOk result (out.new.items ≡ out.old.items ++ doubled text.now) }
{
    'bytes: for byte in text {
        put_byte(out, *byte)?;
    }
    Ok(())
}

fn make_initial(alloc: Global, text: &[u8], rest: &[u8]) -> Result<Vec<u8>, AllocError>
    ensures { IfOk result (λ line. line.items ≡ initial_line text.now rest.now) }
{
    let mut out = Vec::new(alloc);
    out.push(b'\'')?;
    put_doubled(&mut out, text)?;
    out.extend_from_slice(b"' ->")?;
    out.extend_from_slice(rest)?;
    Ok(out)
}

/// The text that a call gives this word.
fn text_given<'a>(given: &'a [Given], name: &[u8]) -> Option<&'a [u8]>
    ensures { option_map (λ text. text.now) result ≡ given_text given.now name.now }
{
    let one = given.iter().find(|one| one.word.as_slice() == name)?;
    Some(one.text.as_slice())
}

/// The text of a word, with this text beside it.
pub fn text_of_word<'a>(
    given: &'a [Given],
    name: &[u8],
    beside: &'a Option<Text>,
) -> Option<&'a [u8]>
    ensures { option_map (λ text. text.now) result ≡ text_for given.now name.now beside.now }
{
    if let Some(text) = text_given(given, name) {
        return Some(text);
    }
    match beside {
        Some(text) => Some(text.as_slice()),
        None => None,
    }
}

// What a line of the main part becomes that isn't a word's.
fn fill_other(alloc: Global, line: &[u8]) -> Result<Vec<u8>, AllocError>
    ensures { IfOk result (λ filled. filled.items ≡ used_line line.now (use_line line.now)) }
{
    match read_use_line(alloc, line)? {
        Some(_) => Ok(Vec::new(alloc)),
        None => line.to_vec(alloc),
    }
}

fn fill_main(alloc: Global, given: &[Given], line: &[u8]) -> Result<Vec<u8>, AllocError>
    ensures { IfOk result (λ filled. filled.items ≡ main_line given.now line.now) }
{
    let Some(word) = read_word_line(alloc, line)? else {
        return fill_other(alloc, line);
    };
    let WordLine { name, beside, rest } = word;
    match text_of_word(given, name.as_slice(), &beside) {
        Some(text) => make_initial(alloc, text, rest.as_slice()),
        None => line.to_vec(alloc),
    }
}

fn fill_line(
    alloc: Global,
    place: Place,
    given: &[Given],
    line: &[u8],
) -> Result<Vec<u8>, AllocError>
    ensures { IfOk result (λ filled. filled.items ≡ filled_line place given.now line.now) }
{
    match place {
        Place::Head => line.to_vec(alloc),
        Place::Main => fill_main(alloc, given, line),
        Place::Inside => line.to_vec(alloc),
        Place::Other => line.to_vec(alloc),
    }
}

/// A line with its end.
pub fn put_line(out: &mut Vec<u8>, line: &[u8]) -> Result<(), AllocError>
    ensures { OnOk result (out.new.items ≡ out.old.items ++ ended line.now) }
{
    out.extend_from_slice(line)?;
    if line.last() == Some(&b'\r') {
        return out.extend_from_slice(b"\r\n");
    }
    out.push(b'\n')?;
    Ok(())
}

/// The text of lines, each filled, and none where it has more bytes than a network file may have: no line behind the one with the first byte too many is
/// filled.
pub fn fill_lines(
    alloc: Global,
    lines: &[Vec<u8>],
    given: &[Given],
) -> Result<Option<Vec<u8>>, AllocError>
    ensures text { IfOk result (λ made. IfSome made (λ text. text.items ≡ text_of (filled_lines Place.Head given.now (map (λ line. line.items) lines.now)))) }
    ensures within { IfOk result (λ made. IfSome made (λ text. length text.items ≤ FILE_LIMIT)) }
    ensures long { IfOk result (λ made. IfNone made (IsTooLong given.now (map (λ line. line.items) lines.now))) }
{
    let mut out = Vec::new(alloc);
    let mut place = Place::Head;
    'lines: for line in lines {
        let line = line.as_slice();
        let filled = fill_line(alloc, place, given, line)?;
        put_line(&mut out, filled.as_slice())?;
        if out.len() as u64 > FILE_LIMIT {
            return Ok(None);
        }
        place = place.after(line);
    }
    Ok(Some(out))
}

fn add_word(
    alloc: Global,
    words: &mut Vec<FileWord>,
    number: u64,
    line: &[u8],
) -> Result<(), AllocError>
    ensures { OnOk result (words.new.items ≡ words.old.items ++ word_here number Place.Main line.now) }
{
    let Some(word) = read_word_line(alloc, line)? else {
        return Ok(());
    };
    let WordLine {
        name,
        beside,
        rest: _,
    } = word;
    words.push(FileWord {
        line: number,
        name,
        beside,
    })?;
    Ok(())
}

fn add_words(
    alloc: Global,
    words: &mut Vec<FileWord>,
    number: u64,
    place: Place,
    line: &[u8],
) -> Result<(), AllocError>
    ensures { OnOk result (words.new.items ≡ words.old.items ++ word_here number place line.now) }
{
    match place {
        Place::Main => add_word(alloc, words, number, line),
        Place::Head => Ok(()),
        Place::Inside => Ok(()),
        Place::Other => Ok(()),
    }
}

/// The words of the lines of a file.
pub fn words_of_lines(alloc: Global, lines: &[Vec<u8>]) -> Result<Vec<FileWord>, AllocError>
    ensures { IfOk result (λ words. words.items ≡ words_in (map (λ line. line.items) lines.now)) }
{
    let mut words = Vec::new(alloc);
    let mut place = Place::Head;
    'lines: for (i, line) in lines.iter().enumerate() {
        let line = line.as_slice();
        add_words(alloc, &mut words, i as u64 + 1, place, line)?;
        place = place.after(line);
    }
    Ok(words)
}
