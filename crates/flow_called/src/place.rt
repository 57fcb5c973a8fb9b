//! Lines of the files that a network file uses, as they are told: by their file and by their number there.
use crate::used::Origin;
use flow_explain::put_word;
use flow_text::decimal;
use std::alloc::{AllocError, Global};

/// How a sentence tells a line by its number: what stands before the number, and what behind it.
#[derive(Clone, Copy)]
struct Sentence {
    before: &'static str,
    behind: &'static str,
}

// All sentences of an explanation that tell a line so.
const SENTENCES: [Sentence; 4] = [
    Sentence {
        before: "The text of line ",
        behind: " goes to ",
    },
    Sentence {
        before: "Line ",
        behind: " has this port already. ",
    },
    Sentence {
        before: "Line ",
        behind: " gave this connection (",
    },
    Sentence {
        before: " has another kind by line ",
        behind: ". A process has one kind in its part.",
    },
];

// A sentence that tells a line: its form, the file that has the line, the number there, and what stands before and behind that form.
#[derive(Clone, Copy)]
struct Found<'a> {
    first: &'a str,
    sentence: Sentence,
    origin: &'a Origin,
    place: u64,
    last: &'a str,
}

/// A page about a text with these files behind its own lines. Where it tells a line of theirs by the number in the text, it tells the file and the number there.
pub fn placed(alloc: Global, page: String, origins: &[Origin]) -> Result<String, AllocError> {
    if origins.is_empty() {
        return Ok(page);
    }
    let mut told = String::new(alloc);
    let mut is_first = true;
    for line in page.as_str().split('\n') {
        if !is_first {
            told.push('\n')?;
        }
        is_first = false;
        put_placed(&mut told, line, origins)?;
    }
    Ok(told)
}

// A line of a page: one that shows a line, behind its number, or a sentence.
fn put_placed(told: &mut String, line: &str, origins: &[Origin]) -> Result<(), AllocError> {
    if let Some((number, shown)) = line.split_once(" | ") {
        if let Some((origin, number)) = origin_of(number, origins) {
            put_word(told, origin.name.as_bytes())?;
            write!(told, ": {number} | ")?;
            return told.push_str(shown);
        }
    }
    put_sentence(told, line, origins)
}

// A sentence, which may tell the number of a line.
fn put_sentence(told: &mut String, line: &str, origins: &[Origin]) -> Result<(), AllocError> {
    for sentence in &SENTENCES {
        if let Some(found) = found_in(line, *sentence, origins) {
            return put_found(told, &found);
        }
    }
    told.push_str(line)
}

// What a sentence of this form tells, where that is a line of one of these files.
fn found_in<'a>(line: &'a str, sentence: Sentence, origins: &'a [Origin]) -> Option<Found<'a>> {
    let (first, rest) = line.split_once(sentence.before)?;
    let (number, last) = rest.split_once(sentence.behind)?;
    let (origin, place) = origin_of(number, origins)?;
    Some(Found {
        first,
        sentence,
        origin,
        place,
        last,
    })
}

fn put_found(told: &mut String, found: &Found<'_>) -> Result<(), AllocError> {
    let Sentence { before, behind } = found.sentence;
    write!(told, "{}{before}{} of ", found.first, found.place)?;
    put_word(told, found.origin.name.as_bytes())?;
    told.push_str(behind)?;
    told.push_str(found.last)
}

// The file that has the line of this number, and the number there, where that is one of these files.
fn origin_of<'a>(number: &str, origins: &'a [Origin]) -> Option<(&'a Origin, u64)> {
    let number = decimal(number.as_bytes(), 1, u64::MAX)?;
    let mut found = None;
    for origin in origins {
        if origin.before < number {
            found = Some((origin, number.saturating_sub(origin.before)));
        }
    }
    found
}
