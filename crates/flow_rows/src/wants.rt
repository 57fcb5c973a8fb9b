//! What a row wants, beside what came.
use crate::bytes::{RowStop, number, spelled};
use crate::came::Came;
use crate::page::{Step, first_word};
use crate::shown::{alike, shown};
use std::alloc::{AllocError, Global};

/// The numbers of a call that a line compares.
pub fn numbers_of(alloc: Global, came: &Came, word: &str) -> Result<String, RowStop> {
    let text = match word {
        "status" => spelled(alloc, &[u64::from(came.status)]),
        "turns" => spelled(alloc, &[came.turns as u64]),
        "seen" => spelled(alloc, &came.seen),
        "tapes" => spelled(alloc, &[came.entries.len() as u64]),
        "entries" => spelled(alloc, &came.entries),
        _ => return Err(RowStop::Unknown),
    };
    Ok(text?)
}

/// The bytes of a call that a line compares. None: there is no such file.
fn bytes_named<'a>(came: &'a Came, step: &Step) -> Option<&'a [u8]> {
    match step.word {
        "prints" => Some(&came.printed),
        "tells" => Some(&came.told),
        _ => came.shelf.file(first_word(step.rest).0),
    }
}

/// How it compares them.
pub fn how_of<'a>(step: &'a Step) -> &'a str {
    match step.word {
        "left" => first_word(step.rest).1,
        _ => step.rest,
    }
}

// Whether bytes have another piece somewhere in them.
fn has(bytes: &[u8], piece: &[u8]) -> bool {
    !piece.is_empty() && bytes.windows(piece.len()).any(|window| window == piece)
}

fn sum(bytes: &[u8]) -> u64 {
    bytes
        .iter()
        .fold(0u64, |sum, byte| sum.saturating_add(u64::from(*byte)))
}

// Whether there are bytes, and they are as a line wants them.
fn is_as_wanted(bytes: Option<&[u8]>, how: &str, wanted: &[u8]) -> Result<bool, RowStop> {
    let Some(bytes) = bytes else {
        return Ok(how == "none");
    };
    match first_word(how) {
        ("none", "") => Ok(false),
        ("", "") | ("again", "") => Ok(bytes == wanted),
        ("begins", "") => Ok(bytes.starts_with(wanted)),
        ("ends", "") => Ok(bytes.ends_with(wanted)),
        ("has", "") => Ok(has(bytes, wanted)),
        ("size", text) => Ok(bytes.len() as u64 == number(text)?),
        ("sum", text) => Ok(sum(bytes) == number(text)?),
        _ => Err(RowStop::Unknown),
    }
}

// What stands from a place on.
fn shown_from(alloc: Global, bytes: Option<&[u8]>, place: usize) -> Result<String, AllocError> {
    match bytes {
        Some(bytes) => shown(alloc, bytes.get(place..).unwrap_or(b"")),
        None => String::from_str(alloc, "no such file"),
    }
}

/// Tells what differs, and nothing where all is as the line wants it.
pub fn put_difference(
    out: &mut String,
    alloc: Global,
    step: &Step,
    came: &Came,
    wanted: &[u8],
) -> Result<(), RowStop> {
    let bytes = bytes_named(came, step);
    let how = how_of(step);
    if is_as_wanted(bytes, how, wanted)? {
        return Ok(());
    }
    // Where they should be the same, from the first place on where they aren't.
    let place = match bytes {
        Some(bytes) if how.is_empty() || how == "again" => alike(bytes, wanted),
        _ => 0,
    };
    let Step { word, rest, .. } = step;
    let wanted = shown_from(alloc, Some(wanted), place)?;
    let came = shown_from(alloc, bytes, place)?;
    write!(
        out,
        "  {word} {rest}, from byte {place} on\n    wanted: {wanted}\n    came: {came}\n"
    )?;
    Ok(())
}
