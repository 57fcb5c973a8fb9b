//! What the program says besides on the standard error: what a person needs to find a fault. No contract speaks of it,
//! and it never changes how the program ends.
use crate::own::Known;
use crate::words::put_wrong;
use flow_called::{Origin, placed};
use flow_cli::Status;
use flow_explain::{
    Use, net_of, put_failed, put_folders, put_large, put_named, put_open, put_refusal,
    put_refusal_of, put_stream, put_too_large,
};
use flow_limits::FILE_LIMIT;
use flow_tape::TAPE_FILE_LIMIT;
use flow_words::command;
use std::alloc::{AllocError, Global};
use std::fs::{File, Files};
use std::io;

const HELP: &str = "flow --help prints what can be asked for.\n";

const OTHER_RUN: &str =
    "A journal is replayed with the network file and the input files of its own run.\n";

const OTHER_TAPES: &str =
    "A replay takes the file of tapes that its own run wrote by --tapes; a network without components of one's own needs none.\n";

/// What is known of a fault besides the status: what the system answered, and the file at which it did.
#[derive(Clone, Copy)]
pub struct Fault<'a> {
    pub reason: Option<io::Error>,
    pub file: Option<&'a str>,
}

/// The file of a fault: the last one that was asked for, but none where the fault was one of printing.
pub fn file_of(printing: bool, last: Option<&str>) -> Option<&str> {
    if printing { None } else { last }
}

/// Tells before a run which of its files can't be written, since their folders aren't there. The network file has these bytes, or comes to them when it is filled,
/// with lines of these files that it uses.
pub fn foresee<R: Files<File = File> + Eprint + Drop>(
    alloc: Global,
    rt: &R,
    words: &[String],
    net: &[u8],
    origins: Option<&[Origin]>,
) {
    let mut page = String::new(alloc);
    if put_folders(alloc, rt, &mut page, words, net).is_err() {
        return;
    }
    let told = match origins {
        Some(origins) => placed(alloc, page, origins),
        None => Ok(page),
    };
    if let Ok(page) = told {
        if !page.is_empty() {
            let _ = rt.eprint(page);
        }
    }
}

/// Tells from which lines of files the packets came at which processes failed, where a run or a replay of this network ended so and printed this.
pub fn explain_failed<R: Files<File = File> + Eprint + Drop>(
    alloc: Global,
    rt: &R,
    words: &[String],
    net: &[u8],
    printed: &[u8],
    known: &Known,
) {
    let mut page = String::new(alloc);
    let told = put_failed(alloc, rt, &mut page, words, net, &known.kinds, printed);
    if told.is_ok() && !page.is_empty() {
        let _ = rt.eprint(page);
    }
}

/// Explains a status, where there is more to say than its line on the standard output. What can't be said, for want of
/// memory or of a standard error, is left out. Where the network file is filled, this is its text, with lines of these files
/// that it uses.
pub fn explain<R: Files<File = File> + Eprint + Drop>(
    alloc: Global,
    rt: &R,
    words: &[String],
    status: Status,
    fault: Fault<'_>,
    filled: Option<&[u8]>,
    origins: Option<&[Origin]>,
    known: &Known,
) {
    if let Ok(page) = told(alloc, rt, words, status, &fault, filled, origins, known) {
        if !page.is_empty() {
            let _ = rt.eprint(page);
        }
    }
    if let Some(reason) = fault.reason {
        if status == Status::ReadFault || status == Status::WriteFault {
            let _ = rt.eprintln(reason);
        }
    }
}

// What is said of a status, with the lines of each file told by its name.
fn told<R: Files<File = File> + Eprint + Drop>(
    alloc: Global,
    rt: &R,
    words: &[String],
    status: Status,
    fault: &Fault<'_>,
    filled: Option<&[u8]>,
    origins: Option<&[Origin]>,
    known: &Known,
) -> Result<String, AllocError> {
    let page = page(alloc, rt, words, status, fault, filled, known)?;
    match origins {
        Some(origins) => placed(alloc, page, origins),
        None => Ok(page),
    }
}

// What is said of a status.
fn page<R: Files<File = File> + Eprint + Drop>(
    alloc: Global,
    rt: &R,
    words: &[String],
    status: Status,
    fault: &Fault<'_>,
    filled: Option<&[u8]>,
    known: &Known,
) -> Result<String, AllocError> {
    let mut page = String::new(alloc);
    match status {
        Status::Finished => put_open(alloc, rt, &mut page, words, &known.kinds, filled)?,
        Status::Words => {
            put_wrong(alloc, &mut page, words)?;
            page.push_str(HELP)?;
        }
        Status::Refused => {
            if let Some(name) = net_named(alloc, words) {
                put_own_refusal(alloc, rt, &mut page, name, filled, known)?;
            }
        }
        Status::NoMemory => {
            if let Some(name) = net_named(alloc, words) {
                put_own_large(alloc, rt, &mut page, name, filled)?;
            }
        }
        Status::JournalRefused => page.push_str(OTHER_RUN)?,
        Status::TapesRefused => page.push_str(OTHER_TAPES)?,
        Status::ReadFault => put_file(alloc, rt, &mut page, words, fault, Use::Read, filled)?,
        Status::WriteFault => put_file(alloc, rt, &mut page, words, fault, Use::Written, filled)?,
        Status::TooLong => {
            put_file(alloc, rt, &mut page, words, fault, Use::Read, filled)?;
            write!(
                page,
                "A network file with the files that it uses has at most {FILE_LIMIT} bytes, as an input file has, and a file of tapes {TAPE_FILE_LIMIT}.\n"
            )?;
        }
        _ => {}
    }
    Ok(page)
}

// Why the network file of this name is refused, beside what this program hands in; or the text that it is when it is filled.
fn put_own_refusal<R: Files<File = File> + Eprint + Drop>(
    alloc: Global,
    rt: &R,
    page: &mut String,
    name: &str,
    filled: Option<&[u8]>,
    known: &Known,
) -> Result<(), AllocError> {
    match filled {
        Some(text) => put_refusal_of(alloc, page, text, &known.kinds, &known.parts),
        None => put_refusal(alloc, rt, page, name, &known.kinds, &known.parts),
    }
}

// Which pattern of the network file of this name is too large, if one is; or of the text that it is when it is filled.
fn put_own_large<R: Files<File = File> + Eprint + Drop>(
    alloc: Global,
    rt: &R,
    page: &mut String,
    name: &str,
    filled: Option<&[u8]>,
) -> Result<(), AllocError> {
    match filled {
        Some(text) => put_large(alloc, page, text),
        None => put_too_large(alloc, rt, page, name),
    }
}

// Tells where the file of a fault is named.
fn put_file<R: Files<File = File> + Eprint + Drop>(
    alloc: Global,
    rt: &R,
    page: &mut String,
    words: &[String],
    fault: &Fault<'_>,
    used: Use,
    filled: Option<&[u8]>,
) -> Result<(), AllocError> {
    match fault.file {
        Some(file) => {
            put_named(alloc, rt, page, words, file, used, filled)?;
            put_stream(page, file, used)
        }
        None => Ok(()),
    }
}

// The network file that the words name.
fn net_named<'a>(alloc: Global, words: &'a [String]) -> Option<&'a str> {
    match command(alloc, words) {
        Ok(Some(asked)) => net_of(&asked),
        _ => None,
    }
}
