//! Texts for the words of a network that are refused, and why.
use flow_explain::{nearest, put_word};
use flow_fill::{FillFault, Given, words_of};
use flow_text::{lines, put_decimal};
use std::alloc::{AllocError, Global};

/// What is said of a call whose texts are refused: a line that tells why, and a page that helps to find the fault.
#[derive(Drop)]
pub struct Refusal {
    pub line: Vec<u8>,
    pub page: String,
}

// The line of a refusal.
fn line(alloc: Global, name: &[u8], reason: &[u8]) -> Result<Vec<u8>, AllocError> {
    let mut out = Vec::from_slice(alloc, b"word refused: ")?;
    out.extend_from_slice(name)?;
    out.extend_from_slice(reason)?;
    out.push(b'\n')?;
    Ok(out)
}

// The word of a text that is given, or nothing.
fn word_given(given: &[Given], place: usize) -> &[u8] {
    match given.get(place) {
        Some(one) => one.word.as_slice(),
        None => b"",
    }
}

/// Why these texts are refused for the network file with these bytes.
pub fn refusal_of(
    alloc: Global,
    net: &[u8],
    given: &[Given],
    fault: FillFault,
) -> Result<Refusal, AllocError> {
    let mut page = String::new(alloc);
    let line = match fault {
        FillFault::Twice(place) => line(alloc, word_given(given, place), b" is given twice")?,
        FillFault::Unknown(place) => {
            let name = word_given(given, place);
            put_known(alloc, &mut page, net, name)?;
            line(alloc, name, b" is unknown")?
        }
        FillFault::Unspelled(place, byte) => {
            let mut reason = Vec::from_slice(alloc, b" has a line end at byte ")?;
            put_decimal(&mut reason, byte as u64)?;
            line(alloc, word_given(given, place), &reason)?
        }
        FillFault::NoText(place) => textless(alloc, &mut page, net, place)?,
    };
    Ok(Refusal { line, page })
}

// The line for a word without a text; the page shows where the file has it.
fn textless(
    alloc: Global,
    page: &mut String,
    net: &[u8],
    place: usize,
) -> Result<Vec<u8>, AllocError> {
    let words = words_of(alloc, net)?;
    let Some(word) = words.get(place) else {
        return line(alloc, b"", b"a word has no text");
    };
    put_file_line(alloc, page, net, word.line)?;
    page.push_str("A text for it stands behind the network file of the call, as ")?;
    put_word(page, word.name.as_slice())?;
    page.push_str("=TEXT, or beside it in the line, in quotes.\n")?;
    line(alloc, word.name.as_slice(), b" has no text")
}

// The line of the file with this number.
fn put_file_line(
    alloc: Global,
    page: &mut String,
    net: &[u8],
    number: u64,
) -> Result<(), AllocError> {
    let lines = lines(alloc, net)?;
    let mut count: u64 = 0;
    for line in &lines {
        count = count.saturating_add(1);
        if count == number {
            write!(page, "{number} | ")?;
            put_word(page, line.as_slice())?;
            return page.push('\n');
        }
    }
    Ok(())
}

// The words that the network has, and the one that is nearest to a wrong one.
fn put_known(alloc: Global, page: &mut String, net: &[u8], wrong: &[u8]) -> Result<(), AllocError> {
    let words = words_of(alloc, net)?;
    if words.is_empty() {
        return page.push_str("The network has no words.\n");
    }
    let mut names: Vec<&[u8]> = Vec::new(alloc);
    for word in &words {
        names.push(word.name.as_slice())?;
    }
    if let Some(name) = nearest(alloc, wrong, &names)? {
        page.push_str("The nearest is ")?;
        put_word(page, name)?;
        page.push_str(".\n")?;
    }
    put_names(page, &names)
}

fn put_names(page: &mut String, names: &[&[u8]]) -> Result<(), AllocError> {
    page.push_str("The words of the network:")?;
    for name in names {
        page.push(' ')?;
        put_word(page, name)?;
    }
    page.push_str(".\n")
}
