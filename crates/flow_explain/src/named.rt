//! Where the file of a fault is named: by a line of the network file, or by a word of the call.
use crate::found::Found;
use crate::net::put_found;
use crate::refusal::bytes_of;
use crate::shown::put_between;
use crate::texts::{Texts, given_by};
use flow_words::{Command, command};
use std::alloc::{AllocError, Global};
use std::fs::{File, Files};

/// What the file of a fault was for.
#[derive(Clone, Copy, PartialEq, Eq)]
pub enum Use {
    Read,
    Written,
}

impl Use {
    /// The standard kind of the processes whose files are for this.
    pub fn kind(self) -> &'static [u8] {
        match self {
            Use::Read => b"ReadLines",
            Use::Written => b"WriteLines",
        }
    }
}

/// Tells where the call with these words names a file: the word, or the line of the network file and its process. Where
/// that file is filled, the line is one of its filled text. Where it can't be found out nothing is told.
pub fn put_named<R: Files<File = File> + Eprint + Drop>(
    alloc: Global,
    rt: &R,
    page: &mut String,
    words: &[String],
    file: &str,
    used: Use,
    filled: Option<&[u8]>,
) -> Result<(), AllocError> {
    let Some(asked) = command(alloc, words)? else {
        return Ok(());
    };
    if let Some(word) = word_of(&asked, file, used) {
        return put_between(page, "", word.as_bytes(), " names this file.\n");
    }
    let Some(net) = net_of(&asked) else {
        return Ok(());
    };
    if let Some(text) = filled {
        return put_line_of(alloc, page, text, file.as_bytes(), used);
    }
    match bytes_of(alloc, rt, net) {
        Some(bytes) => put_line_of(alloc, page, &bytes, file.as_bytes(), used),
        None => Ok(()),
    }
}

/// The network file that words ask about, if they do.
pub fn net_of<'a>(asked: &Command<'a>) -> Option<&'a str> {
    match asked {
        Command::Run(asked) => Some(asked.net),
        Command::Check(net) => Some(*net),
        Command::Judge(net) => Some(*net),
        Command::Replay { net, .. } => Some(*net),
        Command::Page(_) => None,
        Command::Make { .. } => None,
    }
}

// The word of the call that names a file for this.
fn word_of(asked: &Command<'_>, file: &str, used: Use) -> Option<&'static str> {
    match (asked, used) {
        (Command::Run(run), Use::Written) => {
            if is(run.journal, file) {
                Some("--journal")
            } else if is(run.tapes, file) {
                Some("--tapes")
            } else if is(run.report.file, file) {
                Some("--report")
            } else {
                None
            }
        }
        (Command::Replay { journal, tapes, .. }, Use::Read) => {
            if *journal == file {
                Some("--replay")
            } else if is(*tapes, file) {
                Some("--tapes")
            } else {
                None
            }
        }
        _ => None,
    }
}

fn is(name: Option<&str>, file: &str) -> bool {
    match name {
        Some(name) => name == file,
        None => false,
    }
}

// Whether a line gives this name as its text.
fn gives(alloc: Global, found: &Found<'_>, file: &[u8]) -> Result<bool, AllocError> {
    match given_by(alloc, found)? {
        Some(text) => Ok(text.as_slice() == file),
        None => Ok(false),
    }
}

// Shows the first line that gives this name to a process whose files are for this, or else to any.
fn put_line_of(
    alloc: Global,
    page: &mut String,
    net: &[u8],
    file: &[u8],
    used: Use,
) -> Result<(), AllocError> {
    let texts = Texts::of(alloc, net, used.kind())?;
    let mut first = None;
    for found in &texts.lines {
        if gives(alloc, found, file)? {
            if texts.is_for(alloc, found)? {
                return put_process_of(page, found);
            }
            first = first.or(Some(*found));
        }
    }
    match first {
        Some(found) => put_process_of(page, &found),
        None => Ok(()),
    }
}

/// Shows a line, and names its process.
pub fn put_process_of(page: &mut String, found: &Found<'_>) -> Result<(), AllocError> {
    put_found(page, found)?;
    match found.said.to {
        Some(mention) => put_between(
            page,
            "This is the file of the process ",
            mention.process,
            ".\n",
        ),
        None => Ok(()),
    }
}
