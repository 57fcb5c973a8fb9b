//! A text, filled.
ghost use Rattle.std.specs.Prelude.{◌≡◌, ◌≤◌, IfOk, IfErr, IfNone, IfSome, None, Some, false, true, length, map};
ghost use Rattle.std.specs.Str.Lines.{lines as lines_of};
ghost use Rattle.flow_limits.specs.declared.TheConstants.{FILE_LIMIT};
ghost use Rattle.flow_fill.specs.Faults.{IfFault, IfLong, IsTooLong, fault_in};
ghost use Rattle.flow_fill.specs.declared.place.Place.TheVariants.{Head};
ghost use Rattle.flow_fill.specs.Filling.{filled_lines, is_third, text_of, words_in};

use crate::check::first_fault;
use crate::fault::FillStop;
use crate::reading::{header, remark};
use crate::rows::{fill_lines, third, words_of_lines};
use crate::word::{FileWord, Given};
use flow_text::{lines, next_line};
use std::alloc::{AllocError, Global};

/// Whether a network file is of version 3. No line behind its first one that is no remark is looked at, and no memory is taken.
pub fn is_third(text: &[u8]) -> bool
    ensures { result ≡ is_third (lines_of text.now) }
{
    let mut from = 0;
    'lines: while let Some((end, next)) = next_line(text, from) {
        let line = &text[from..end];
        if !remark(line) {
            return header(line);
        }
        from = next;
    }
    false
}

/// The words that a network file has, in the order of its lines; a file of another version than 3 has none.
pub fn words_of(alloc: Global, text: &[u8]) -> Result<Vec<FileWord>, AllocError>
    ensures { IfOk result (λ words. words.items ≡ words_in (lines_of text.now)) }
{
    let lines = lines(alloc, text)?;
    words_of_lines(alloc, lines.as_slice())
}

fn copy(alloc: Global, text: &[u8]) -> Result<Vec<u8>, AllocError>
    ensures { IfOk result (λ copy. copy.items ≡ text.now) }
{
    Vec::from_slice(alloc, text)
}

// The text with these lines, filled, and none where it is too long. All that is given can stand in a line.
fn filled(
    alloc: Global,
    text: &[u8],
    rows: &[Vec<u8>],
    given: &[Given],
) -> Result<Option<Vec<u8>>, AllocError>
    requires rows { map (λ row. row.items) rows.now ≡ lines_of text.now }
    requires sound { fault_in (words_in (lines_of text.now)) given.now ≡ None }
    ensures filled { IfOk result (λ made. IfSome made (λ bytes. lines_of bytes.items ≡ filled_lines Head given.now (lines_of text.now))) }
    ensures same { is_third (lines_of text.now) ≡ false → IfOk result (λ made. IfSome made (λ bytes. bytes.items ≡ text.now)) }
    ensures whole { is_third (lines_of text.now) ≡ true → IfOk result (λ made. IfSome made (λ bytes. bytes.items ≡ text_of (filled_lines Head given.now (lines_of text.now)))) }
    ensures within { is_third (lines_of text.now) ≡ true → IfOk result (λ made. IfSome made (λ bytes. length bytes.items ≤ FILE_LIMIT)) }
    ensures third { IfOk result (λ made. IfNone made (is_third (lines_of text.now) ≡ true)) }
    ensures long { IfOk result (λ made. IfNone made (IsTooLong given.now (lines_of text.now))) }
{
    if !third(rows) {
        let same = copy(alloc, text)?;
        return Ok(Some(same));
    }
    let made = fill_lines(alloc, rows, given)?;
    Ok(made)
}

/// The text that a network file is with these texts for its words: of version 3 one without words, and with lines as version 2 has them. A file of another version stays as it is. The format is this project's own.
pub fn fill(alloc: Global, text: &[u8], given: &[Given]) -> Result<Vec<u8>, FillStop>
    // There is a text exactly where there is no fault; and line for line it is what the file says with these texts.
    ensures sound { IfOk result (λ _. fault_in (words_in (lines_of text.now)) given.now ≡ None) }
    ensures filled { IfOk result (λ bytes. lines_of bytes.items ≡ filled_lines Head given.now (lines_of text.now)) }
    // A fault is the first one.
    ensures fault { IfErr result (λ stop. IfFault stop (λ fault. fault_in (words_in (lines_of text.now)) given.now ≡ Some fault)) }
    // A file of another version stays as it is, to the byte.
    ensures same { is_third (lines_of text.now) ≡ false → IfOk result (λ bytes. bytes.items ≡ text.now) }
    // One of version 3 comes to the text of its filled lines, which has no more bytes than a network file may have; it is too long where that has more.
    ensures whole { is_third (lines_of text.now) ≡ true → IfOk result (λ bytes. bytes.items ≡ text_of (filled_lines Head given.now (lines_of text.now))) }
    ensures within { is_third (lines_of text.now) ≡ true → IfOk result (λ bytes. length bytes.items ≤ FILE_LIMIT) }
    ensures third { IfErr result (λ stop. IfLong stop (is_third (lines_of text.now) ≡ true)) }
    ensures faultless { IfErr result (λ stop. IfLong stop (fault_in (words_in (lines_of text.now)) given.now ≡ None)) }
    ensures long { IfErr result (λ stop. IfLong stop (IsTooLong given.now (lines_of text.now))) }
{
    let rows = lines(alloc, text)?;
    let words = words_of_lines(alloc, rows.as_slice())?;
    match first_fault(&words, given) {
        Some(fault) => Err(FillStop::Fault(fault)),
        None => match filled(alloc, text, rows.as_slice(), given)? {
            Some(made) => Ok(made),
            None => Err(FillStop::TooLong),
        },
    }
}
