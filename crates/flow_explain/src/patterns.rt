//! Where a text that was given for a pattern stops being one, and which pattern is too large to be compiled.
use crate::found::{Found, Walk};
use crate::may::Uses;
use crate::net::put_found;
use crate::pieces::{Piece, behind, is_line_end, pieces};
use crate::said::Tag;
use crate::shown::{put_behind, put_word};
use crate::texts::given_by;
use flow_limits::PROCESS_LIMIT;
use flow_pattern::{is_pattern, is_too_large, slip_in, template_slip_in};
use std::alloc::{AllocError, Global};

/// The text that a line gives, as it is spelled between its quotes; none where it gives none.
pub fn spelled<'a>(alloc: Global, found: &Found<'a>) -> Result<Option<&'a [u8]>, AllocError> {
    let pieces = pieces(alloc, found.version, found.line)?;
    match pieces.first().copied() {
        Some(Piece::Quoted(spelled)) => Ok(Some(spelled)),
        _ => Ok(None),
    }
}

/// A text without the quotes that are doubled in its spelling.
pub fn text_of(alloc: Global, spelled: &[u8]) -> Result<Vec<u8>, AllocError> {
    let mut text = Vec::new(alloc);
    let mut is_second = false;
    for byte in spelled {
        if *byte == b'\'' && is_second {
            is_second = false;
            continue;
        }
        is_second = *byte == b'\'';
        text.push(*byte)?;
    }
    Ok(text)
}

/// Tells where the text of a line goes wrong as a pattern, and why.
pub fn put_slip(alloc: Global, page: &mut String, found: &Found<'_>) -> Result<(), AllocError> {
    let Some(spelled) = spelled(alloc, found)? else {
        return Ok(());
    };
    let text = text_of(alloc, spelled)?;
    put_slip_in(alloc, page, &text)
}

fn put_slip_in(alloc: Global, page: &mut String, text: &[u8]) -> Result<(), AllocError> {
    match slip_in(alloc, text)? {
        Some(slip) => put_wrong(page, behind(text, slip.place), slip.why),
        None => Ok(()),
    }
}

/// Tells where the text of a line goes wrong as a template for the pattern that another line gives, and why.
pub fn put_template_slip(
    alloc: Global,
    page: &mut String,
    pattern: &Found<'_>,
    found: &Found<'_>,
) -> Result<(), AllocError> {
    let (Some(pattern), Some(text)) = (spelled(alloc, pattern)?, spelled(alloc, found)?) else {
        return Ok(());
    };
    let pattern = text_of(alloc, pattern)?;
    let text = text_of(alloc, text)?;
    if !is_pattern(alloc, &pattern)? {
        return Ok(());
    }
    match template_slip_in(alloc, &pattern, &text)? {
        Some(slip) => put_wrong(page, behind(&text, slip.place), slip.why),
        None => Ok(()),
    }
}

// Tells why a pattern or a template goes wrong where so much of it is left.
fn put_wrong(page: &mut String, rest: &[u8], why: &str) -> Result<(), AllocError> {
    page.push_str("It goes wrong ")?;
    put_place(page, rest)?;
    write!(page, ": {why}.\n")
}

fn put_place(page: &mut String, rest: &[u8]) -> Result<(), AllocError> {
    if rest.is_empty() {
        return page.push_str("at its end");
    }
    put_behind(page, "at ", rest)
}

// Whether a line gives its text to a port that takes patterns: by the port's name, or by its class, as the KEY of a Group.
fn is_for_pattern<'a>(uses: &Uses<'a>, found: &Found<'a>) -> Result<bool, AllocError> {
    match found.said.to {
        Some(mention) if mention.port == b"PATTERN".as_slice() => Ok(true),
        Some(mention) => uses.takes_pattern(found.part, mention),
        None => Ok(false),
    }
}

// The text that a line gives for a pattern; none where it gives none.
fn pattern_given<'a>(
    alloc: Global,
    uses: &Uses<'a>,
    found: &Found<'a>,
) -> Result<Option<Vec<u8>>, AllocError> {
    if found.said.tag != Tag::Initial || !is_for_pattern(uses, found)? {
        return Ok(None);
    }
    given_by(alloc, found)
}

/// Shows the first line that gives a pattern which is too large to be compiled, where there is one. Of the lines that give
/// a pattern no more are tried than a network has processes: others may stand in subnets that nobody uses.
pub fn put_large(alloc: Global, page: &mut String, net: &[u8]) -> Result<(), AllocError> {
    let uses = Uses::of(alloc, net, &[])?;
    let mut walk = Walk::new();
    let mut left = PROCESS_LIMIT;
    for line in net.split(is_line_end) {
        let found = walk.next_line(alloc, line)?;
        let Some(text) = pattern_given(alloc, &uses, &found)? else {
            continue;
        };
        if left == 0 {
            return Ok(());
        }
        left = left.saturating_sub(1);
        if is_too_large(alloc, &text)? {
            return put_large_line(page, &found);
        }
    }
    Ok(())
}

fn put_large_line(page: &mut String, found: &Found<'_>) -> Result<(), AllocError> {
    put_found(page, found)?;
    if let Some(mention) = found.said.to {
        put_word(page, mention.port)?;
    }
    page.push_str(
        " takes more than some 10 MiB when it is compiled, its repetitions written out.\n",
    )
}
