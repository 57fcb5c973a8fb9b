//! The words of a network, and what the texts for them may be.
use crate::own::Known;
use flow_called::{UsedStop, with_used};
use flow_explain::{Uses, put_all};
use flow_fill::{FileWord, FillStop, Given, fill, words_of};
use flow_items::Text;
use flow_limits::STATEMENT_LIMIT;
use flow_load::Stop;
use flow_text::Shelf;
use std::alloc::{AllocError, Global};

/// The words of the network file of this name with these bytes, one in a line, each with the text beside it and with what its text may be.
pub fn texts_page<F: Shelf>(
    alloc: Global,
    shelf: &mut F,
    name: &str,
    net: &[u8],
    known: &Known,
) -> Result<Vec<u8>, AllocError> {
    let words = words_of(alloc, net)?;
    let text = untexted(alloc, shelf, name, net, &words)?;
    let uses = Uses::of(alloc, &text, &known.kinds)?;
    let mut page = String::new(alloc);
    for word in &words {
        put_text(&mut page, word)?;
        uses.put(&mut page, word.line)?;
        page.push('\n')?;
    }
    Vec::from_slice(alloc, page.as_bytes())
}

// The text that a network file comes to with empty texts for its words, and with the files that it uses where these can be read. Of one with more words than a
// network has statements it is none.
fn untexted<F: Shelf>(
    alloc: Global,
    shelf: &mut F,
    name: &str,
    net: &[u8],
    words: &[FileWord],
) -> Result<Vec<u8>, AllocError> {
    if words.len() > STATEMENT_LIMIT {
        return Ok(Vec::new(alloc));
    }
    let given = empty_texts(alloc, words)?;
    let text = match fill(alloc, net, &given) {
        Ok(text) => text,
        Err(FillStop::Fault(_)) | Err(FillStop::TooLong) => return Ok(Vec::new(alloc)),
        Err(FillStop::NoMemory) => return Err(AllocError),
    };
    let alone = Vec::from_slice(alloc, &text)?;
    match with_used(alloc, shelf, name, net, text) {
        Ok(joined) => Ok(joined.text),
        Err(UsedStop::Stop(Stop::NoMemory)) => Err(AllocError),
        Err(_) => Ok(alone),
    }
}

// An empty text for each word, however often the file has it.
fn empty_texts(alloc: Global, words: &[FileWord]) -> Result<Vec<Given>, AllocError> {
    let mut given: Vec<Given> = Vec::new(alloc);
    for word in words {
        let name = word.name.as_slice();
        if !given.iter().any(|one| one.word.as_slice() == name) {
            given.push(Given {
                word: Text::from_slice(alloc, name)?,
                text: Text::new(alloc),
            })?;
        }
    }
    Ok(given)
}

fn put_text(page: &mut String, word: &FileWord) -> Result<(), AllocError> {
    put_all(page, word.name.as_slice())?;
    if let Some(beside) = &word.beside {
        page.push_str(" '")?;
        put_quoted(page, beside.as_slice())?;
        page.push('\'')?;
    }
    Ok(())
}

// A text with each quote doubled, as a terminal can show it.
fn put_quoted(page: &mut String, text: &[u8]) -> Result<(), AllocError> {
    let mut is_first = true;
    for piece in text.split(|byte| *byte == b'\'') {
        if !is_first {
            page.push_str("''")?;
        }
        is_first = false;
        put_all(page, piece)?;
    }
    Ok(())
}
