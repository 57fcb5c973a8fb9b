//! Lines of a network file that are looked for, each in its part: the main part, or a subnet.
use crate::kinds::Side;
use crate::pieces::{is_line_end, is_point, is_remark};
use crate::said::{Mention, Said, Tag, said_by};
use flow_limits::LAST_ELEMENT;
use flow_parse::{FIRST_VERSION, SECOND_VERSION, THIRD_VERSION};
use flow_text::decimal;
use std::alloc::{AllocError, Global};

/// What is looked for in the lines of a part.
#[derive(Clone, Copy)]
pub enum Wanted<'a> {
    /// The line with this number.
    Number(u64),
    /// A line that mentions this process.
    Process(&'a [u8]),
    /// One that gives it a kind.
    Kind(&'a [u8]),
    /// One that mentions this port of it on this side.
    Port(Side, &'a [u8], &'a [u8]),
    /// Another line than the one of this number, with the same element of a port on this side.
    Other(u64, Mention<'a>, Side),
    /// One that mentions an element of an array that is behind this one.
    Behind(&'a [u8], &'a [u8], u32),
    /// One that gives a text to this port of this process.
    Text(&'a [u8], &'a [u8]),
    /// One that gives a connection to this input a capacity.
    Capacity(Mention<'a>),
    /// The beginning of a subnet of this name.
    Subnet(&'a [u8]),
}

/// A line of a file: its number from 1, the version of the file, the subnet in which the line stands, and what it says.
#[derive(Clone, Copy)]
pub struct Found<'a> {
    pub number: u64,
    pub version: u32,
    pub part: Option<&'a [u8]>,
    pub line: &'a [u8],
    pub said: Said<'a>,
}

/// A line without the byte 13 that may stand at its end.
pub fn bare(line: &[u8]) -> &[u8] {
    match line.split_last() {
        Some((b'\r', before)) => before,
        _ => line,
    }
}

/// Whether two parts are the same one.
pub fn is_same_part(one: Option<&[u8]>, other: Option<&[u8]>) -> bool {
    match (one, other) {
        (None, None) => true,
        (Some(one), Some(other)) => one == other,
        _ => false,
    }
}

/// Whether two mentions of a port mean one element of it.
pub fn is_same_port(one: &Mention<'_>, other: &Mention<'_>) -> bool {
    one.process == other.process
        && one.port == other.port
        && one.element.unwrap_or(b"0") == other.element.unwrap_or(b"0")
}

/// Whether this port of a process is mentioned.
pub fn is_port(mention: Option<Mention<'_>>, process: &[u8], port: &[u8]) -> bool {
    match mention {
        Some(mention) => mention.process == process && mention.port == port,
        None => false,
    }
}

fn is_process(mention: Option<Mention<'_>>, process: &[u8]) -> bool {
    match mention {
        Some(mention) => mention.process == process,
        None => false,
    }
}

fn gives_kind(mention: Option<Mention<'_>>, process: &[u8]) -> bool {
    match mention {
        Some(mention) => mention.process == process && mention.kind.is_some(),
        None => false,
    }
}

fn is_same(mention: Option<Mention<'_>>, other: &Mention<'_>) -> bool {
    match mention {
        Some(mention) => is_same_port(&mention, other),
        None => false,
    }
}

// Whether an element of an array is mentioned that is behind this one.
fn is_behind(mention: Option<Mention<'_>>, process: &[u8], port: &[u8], element: u32) -> bool {
    match mention {
        Some(mention) => {
            mention.process == process
                && mention.port == port
                && is_greater(mention.element.unwrap_or(b"0"), element)
        }
        None => false,
    }
}

// Whether a word is an element behind this one.
fn is_greater(word: &[u8], element: u32) -> bool {
    match decimal(word, 0, u64::from(LAST_ELEMENT)) {
        Some(found) => found > u64::from(element),
        None => false,
    }
}

fn mentions(said: &Said<'_>, process: &[u8]) -> bool {
    is_process(said.from, process) || is_process(said.to, process)
}

fn mentions_kind(said: &Said<'_>, process: &[u8]) -> bool {
    gives_kind(said.from, process) || gives_kind(said.to, process)
}

fn mentions_behind(said: &Said<'_>, process: &[u8], port: &[u8], element: u32) -> bool {
    is_behind(said.from, process, port, element) || is_behind(said.to, process, port, element)
}

fn gives_text(said: &Said<'_>, process: &[u8], port: &[u8]) -> bool {
    said.tag == Tag::Initial && is_port(said.to, process, port)
}

fn gives_capacity(said: &Said<'_>, input: &Mention<'_>) -> bool {
    said.capacity.is_some() && is_same(said.to, input)
}

fn begins_subnet(said: &Said<'_>, name: &[u8]) -> bool {
    said.tag == Tag::Subnet && said.name == name
}

fn is_wanted(found: &Found<'_>, wanted: &Wanted<'_>) -> bool {
    let said = &found.said;
    match wanted {
        Wanted::Number(number) => found.number == *number,
        Wanted::Other(number, mention, side) => {
            found.number != *number && is_same(said.mention(*side), mention)
        }
        _ => is_said(said, wanted),
    }
}

// Whether a line is wanted for what it says.
fn is_said(said: &Said<'_>, wanted: &Wanted<'_>) -> bool {
    match wanted {
        Wanted::Process(process) => mentions(said, process),
        Wanted::Kind(process) => mentions_kind(said, process),
        Wanted::Port(side, process, port) => is_port(said.mention(*side), process, port),
        Wanted::Behind(process, port, element) => { mentions_behind(said, process, port, *element) }
        Wanted::Text(process, port) => gives_text(said, process, port),
        Wanted::Capacity(input) => gives_capacity(said, input),
        Wanted::Subnet(name) => begins_subnet(said, name),
        // These are wanted for their number.
        Wanted::Number(_) | Wanted::Other(_, _, _) => false,
    }
}

// The version of a file whose first line that is no remark says this. Where that is no header the file is refused for it.
fn version_of(said: &Said<'_>) -> u32 {
    match (said.tag, said.name) {
        (Tag::Header, b"2") => SECOND_VERSION,
        (Tag::Header, b"3") => THIRD_VERSION,
        _ => FIRST_VERSION,
    }
}

/// The version of a network file with these bytes.
pub fn version_in(alloc: Global, bytes: &[u8]) -> Result<u32, AllocError> {
    let mut walk = Walk::new();
    for line in bytes.split(is_line_end) {
        let _ = walk.next_line(alloc, line)?;
        if let Some(version) = walk.version {
            return Ok(version);
        }
    }
    Ok(FIRST_VERSION)
}

/// A walk over the lines of a file. Its version is told by its first line that is no remark.
#[derive(Drop)]
pub struct Walk<'a> {
    pub number: u64,
    pub version: Option<u32>,
    pub part: Option<&'a [u8]>,
}

impl<'a> Walk<'a> {
    pub fn new() -> Self {
        Walk {
            number: 0,
            version: None,
            part: None,
        }
    }

    // The version by which a line is read.
    fn reads(&self) -> u32 {
        self.version.unwrap_or(FIRST_VERSION)
    }

    /// The next line. The lines that begin and end a subnet belong to it.
    pub fn next_line(&mut self, alloc: Global, line: &'a [u8]) -> Result<Found<'a>, AllocError> {
        let line = bare(line);
        let said = said_by(alloc, self.reads(), line)?;
        self.number = self.number.saturating_add(1);
        self.see_version(line, &said);
        let part = self.see_part(&said);
        Ok(Found {
            number: self.number,
            version: self.reads(),
            part,
            line,
            said,
        })
    }

    // The first line that is no remark tells the version.
    fn see_version(&mut self, line: &[u8], said: &Said<'a>) {
        if self.version.is_none() && !is_remark(line) {
            self.version = Some(version_of(said));
        }
    }

    // The part of a line that says this.
    fn see_part(&mut self, said: &Said<'a>) -> Option<&'a [u8]> {
        if said.tag == Tag::Subnet {
            self.part = Some(said.name);
        }
        let part = self.part;
        if said.tag == Tag::End {
            self.part = None;
        }
        part
    }
}

/// The first line of a part that is wanted.
pub fn find_in<'a>(
    alloc: Global,
    net: &'a [u8],
    part: Option<&[u8]>,
    wanted: &Wanted<'_>,
) -> Result<Option<Found<'a>>, AllocError> {
    let mut walk = Walk::new();
    for line in net.split(is_line_end) {
        let found = walk.next_line(alloc, line)?;
        if is_same_part(found.part, part) && is_wanted(&found, wanted) {
            return Ok(Some(found));
        }
    }
    Ok(None)
}

/// The first line of the file that is wanted, in whichever part.
pub fn find<'a>(
    alloc: Global,
    net: &'a [u8],
    wanted: &Wanted<'_>,
) -> Result<Option<Found<'a>>, AllocError> {
    let mut walk = Walk::new();
    for line in net.split(is_line_end) {
        let found = walk.next_line(alloc, line)?;
        if is_wanted(&found, wanted) {
            return Ok(Some(found));
        }
    }
    Ok(None)
}

/// The kind that a line gives a process.
pub fn kind_given<'a>(said: &Said<'a>, process: &[u8]) -> Option<&'a [u8]> {
    if let Some(mention) = said.from {
        if mention.process == process && mention.kind.is_some() {
            return mention.kind;
        }
    }
    match said.to {
        Some(mention) if mention.process == process => mention.kind,
        _ => None,
    }
}

/// A process in its part, as a flat name tells it.
#[derive(Clone, Copy)]
pub struct Home<'a> {
    pub part: Option<&'a [u8]>,
    pub process: &'a [u8],
}

// The kind of a process of a part.
pub fn kind_of<'a>(
    alloc: Global,
    net: &'a [u8],
    part: Option<&[u8]>,
    process: &[u8],
) -> Result<Option<&'a [u8]>, AllocError> {
    match find_in(alloc, net, part, &Wanted::Kind(process))? {
        Some(found) => Ok(kind_given(&found.said, process)),
        None => Ok(None),
    }
}

/// The part in which a process stands that has this flat name, and its name there: the name begins with those of the
/// subnet processes around it.
pub fn home_of<'a>(alloc: Global, net: &'a [u8], flat: &'a [u8]) -> Result<Home<'a>, AllocError> {
    let mut part = None;
    let mut process: &'a [u8] = b"";
    for name in flat.split(is_point) {
        if !process.is_empty() {
            part = kind_of(alloc, net, part, process)?;
        }
        process = name;
    }
    Ok(Home { part, process })
}

/// The subnet processes around a process that has this flat name, from the outermost on, and the process itself.
pub fn homes_of<'a>(
    alloc: Global,
    net: &'a [u8],
    flat: &'a [u8],
) -> Result<Vec<Home<'a>>, AllocError> {
    let mut homes = Vec::new(alloc);
    let mut part = None;
    for process in flat.split(is_point) {
        homes.push(Home { part, process })?;
        part = kind_of(alloc, net, part, process)?;
    }
    Ok(homes)
}

/// The processes of a part that are given a kind, each as often as it is.
pub fn kinded<'a>(
    alloc: Global,
    net: &'a [u8],
    part: Option<&[u8]>,
) -> Result<Vec<&'a [u8]>, AllocError> {
    let mut names = Vec::new(alloc);
    let mut walk = Walk::new();
    for line in net.split(is_line_end) {
        let found = walk.next_line(alloc, line)?;
        if is_same_part(found.part, part) {
            push_kinded(&mut names, found.said.from)?;
            push_kinded(&mut names, found.said.to)?;
        }
    }
    Ok(names)
}

fn push_kinded<'a>(
    names: &mut Vec<&'a [u8]>,
    mention: Option<Mention<'a>>,
) -> Result<(), AllocError> {
    if let Some(mention) = mention {
        if mention.kind.is_some() {
            names.push(mention.process)?;
        }
    }
    Ok(())
}
