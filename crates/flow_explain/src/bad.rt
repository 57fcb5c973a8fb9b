//! From which line of a file the packet came at which a process failed, as far as the report of its run tells it.
ghost use Rattle.flow_offer.specs.Kinds.{AreOwnKinds};

use crate::own::OwnKinds;
use crate::pieces::is_line_end;
use crate::refusal::{Opened, bytes_of, open_network};
use crate::shown::{put_between, put_word};
use flow_plan::{KindSpec, Plan};
use flow_text::decimal;
use flow_words::{Command, command};
use std::alloc::{AllocError, Global};
use std::fs::{File, Files};

/// The standard kind whose packets are lines of a file: it sends the packet that it made behind n others for line n + 1.
const READER: &[u8] = b"ReadLines";

/// A line of a file, by its number.
#[derive(Clone, Copy)]
struct Place<'a> {
    line: u64,
    file: &'a [u8],
}

/// Tells of each process that failed from which line of a file its packet came, where that is known. The network file has
/// these bytes, or comes to them when it is filled, and may name these kinds of the caller's own. The report is what was
/// printed, or stands in the file that these words name for it. Where it is told in brief beside that file, it is all that is
/// told.
pub fn put_failed<R: Files<File = File> + Eprint + Drop>(
    alloc: Global,
    rt: &R,
    page: &mut String,
    words: &[String],
    net: &[u8],
    own: &[KindSpec],
    printed: &[u8],
) -> Result<(), AllocError>
    requires { AreOwnKinds own.now }
{
    let Opened::Plan(plan) = open_network(alloc, net, OwnKinds { kinds: own })? else {
        return Ok(());
    };
    let (file, brief) = match command(alloc, words)? {
        Some(Command::Run(asked)) => (asked.report.file, asked.report.brief),
        _ => (None, false),
    };
    let Some(name) = file else {
        return put_all(page, &plan, printed);
    };
    if brief {
        return Ok(());
    }
    match bytes_of(alloc, rt, name) {
        Some(report) => put_all(page, &plan, &report),
        None => Ok(()),
    }
}

// Tells of each process that failed.
fn put_all(page: &mut String, plan: &Plan, report: &[u8]) -> Result<(), AllocError> {
    for line in report.split(is_line_end) {
        if word(line, 0) == b"failed".as_slice() {
            put_one(page, plan, report, word(line, 1))?;
        }
    }
    Ok(())
}

// Tells of the process of this name, which failed.
fn put_one(page: &mut String, plan: &Plan, report: &[u8], name: &[u8]) -> Result<(), AllocError> {
    let Some(process) = numbered(plan, name) else {
        return Ok(());
    };
    if let Some(place) = read_at(plan, report, process) {
        return put_place(page, name, " failed at line ", place, ".\n");
    }
    if let Some(place) = received_at(plan, report, process) {
        return put_place(
            page,
            name,
            " failed when it had received line ",
            place,
            ".\n",
        );
    }
    match held_at(plan, report, name) {
        Some(place) => put_place(page, name, " failed with line ", place, " in its hands.\n"),
        None => Ok(()),
    }
}

fn put_place(
    page: &mut String,
    name: &[u8],
    between: &str,
    place: Place<'_>,
    end: &str,
) -> Result<(), AllocError> {
    put_word(page, name)?;
    page.push_str(between)?;
    write!(page, "{}", place.line)?;
    put_between(page, " of ", place.file, end)
}

// The number of the process of this name.
fn numbered(plan: &Plan, name: &[u8]) -> Option<usize> {
    plan.processes()
        .iter()
        .position(|process| process.name.as_slice() == name)
}

// The file of a process that sends its lines.
fn lines_of(plan: &Plan, process: usize) -> Option<&[u8]> {
    let process = plan.processes().get(process)?;
    if process.kind.as_slice() != READER {
        return None;
    }
    let option = process.options.as_slice().first()?;
    Some(option.1.as_slice())
}

// The line that a reader couldn't send: the one behind those that it made packets of.
fn read_at<'a>(plan: &'a Plan, report: &[u8], process: usize) -> Option<Place<'a>> {
    let file = lines_of(plan, process)?;
    let line = line_of(report, b"process", process)?;
    let made = number(line, 7)?;
    Some(Place {
        line: made.saturating_add(1),
        file,
    })
}

// The line that a process received last, where it receives from one reader alone.
fn received_at<'a>(plan: &'a Plan, report: &[u8], process: usize) -> Option<Place<'a>> {
    let place = only_connection(plan, process)?;
    let connection = plan.connections().get(place)?;
    let senders = connection.senders.as_slice();
    if senders.len() != 1 {
        return None;
    }
    let sender = senders.first()?;
    let file = lines_of(plan, sender.process as usize)?;
    let line = line_of(report, b"connection", place)?;
    let takes = number(line, 7)?;
    if takes == 0 {
        return None;
    }
    Some(Place { line: takes, file })
}

// The only connection at the inputs of a process, its automatic one apart.
fn only_connection(plan: &Plan, process: usize) -> Option<usize> {
    let inputs = plan.processes().get(process)?.inputs;
    let mut only = None;
    for (place, connection) in plan.connections().iter().enumerate() {
        if connection.receiver as usize == process && connection.input < inputs {
            if only.is_some() {
                return None;
            }
            only = Some(place);
        }
    }
    only
}

// The last line of a file that is left in the hands of a process, where the report tells all that is left.
fn held_at<'a>(plan: &'a Plan, report: &[u8], name: &[u8]) -> Option<Place<'a>> {
    let mut last = None;
    let mut is_whole = false;
    for line in report.split(is_line_end) {
        if word(line, 0) == b"left".as_slice() {
            if word(line, 2) == b"more".as_slice() {
                return None;
            }
            if word(line, 3) == b"hands".as_slice() && word(line, 5) == name {
                last = packet_at(plan, word(line, 1)).or(last);
            }
        }
        is_whole = is_whole || word(line, 0) == b"total".as_slice();
    }
    if is_whole { last } else { None }
}

// The line that a packet is, which is told by who made it and how many it had made before.
fn packet_at<'a>(plan: &'a Plan, packet: &[u8]) -> Option<Place<'a>> {
    let mut parts = packet.split(is_colon);
    let maker = parts.next()?;
    let file = lines_of(plan, numbered(plan, maker)?)?;
    let number = parts.next()?;
    let before = decimal(number, 0, u64::MAX)?;
    Some(Place {
        line: before.saturating_add(1),
        file,
    })
}

// The line of a report with this number among those that begin with this word.
fn line_of<'a>(report: &'a [u8], first: &[u8], place: usize) -> Option<&'a [u8]> {
    let mut count: usize = 0;
    for line in report.split(is_line_end) {
        if word(line, 0) == first {
            if count == place {
                return Some(line);
            }
            count = count.saturating_add(1);
        }
    }
    None
}

// The word of a line at this place.
fn word(line: &[u8], place: usize) -> &[u8] {
    let mut count: usize = 0;
    for word in line.split(is_space) {
        if count == place {
            return word;
        }
        count = count.saturating_add(1);
    }
    b""
}

fn number(line: &[u8], place: usize) -> Option<u64> {
    decimal(word(line, place), 0, u64::MAX)
}

fn is_space(byte: &u8) -> bool {
    *byte == b' '
}

fn is_colon(byte: &u8) -> bool {
    *byte == b':'
}
