//! The files that a network file uses: they are read, and their subnets stand behind its text.
use flow_fill::{join, used_of};
use flow_items::Text;
use flow_limits::FILE_LIMIT;
use flow_load::{NetRefusal, Stop, read_file, read_stop};
use flow_parse::{NetFault, ParseStop, parse};
use flow_text::{Shelf, lines};
use std::alloc::{AllocError, AllocFailed, Global};

/// The most files that a network file may use, those that other ones use among them.
const FILES: usize = 64;

/// A file that a network file uses, and how many lines stand before its own in the text of both.
#[derive(Drop)]
pub struct Origin {
    pub name: String,
    pub before: u64,
}

/// The text of a network file, with the subnets behind it of the files that it uses, and where the lines of these begin.
#[derive(Drop)]
pub struct Joined {
    pub text: Vec<u8>,
    pub origins: Vec<Origin>,
}

/// Why the files that a network file uses give no text.
#[derive(Drop)]
pub enum UsedStop {
    /// One of them couldn't be read, or memory was wanting.
    Stop(Stop),
    /// The network is refused: this is printed, and what is told besides is of this text, where there is one.
    Refused { line: Vec<u8>, told: Option<Joined> },
}

impl From<AllocError> for UsedStop {
    fn from(_: AllocError) -> UsedStop {
        UsedStop::Stop(Stop::NoMemory)
    }
}

impl<T: Drop> From<AllocFailed<T>> for UsedStop {
    fn from(_: AllocFailed<T>) -> UsedStop {
        UsedStop::Stop(Stop::NoMemory)
    }
}

/// The files that a network file uses, in their order: those of its own `use` lines, and then those of each file that is used.
#[derive(Drop)]
struct Used {
    names: Vec<String>,
    files: Vec<Vec<u8>>,
}

/// The text of a network file with the subnets behind it of the files that it uses. Where the text alone has the fault of a line, it is given as it is.
pub fn with_used<F: Shelf>(
    alloc: Global,
    shelf: &mut F,
    name: &str,
    net: &[u8],
    text: Vec<u8>,
) -> Result<Joined, UsedStop> {
    let Used { names, files } = read_used(alloc, shelf, name, net, text.len())?;
    if files.is_empty() {
        return Ok(alone(alloc, text));
    }
    let joined = join(alloc, &text, &files)?;
    // Where the whole has no fault, the text and what each file brings have none: a subnet that one of them leaves open is
    // a fault of the whole too.
    if fault_in(alloc, &joined)?.is_some() {
        if fault_in(alloc, &text)?.is_some() {
            return Ok(alone(alloc, text));
        }
        check_used(alloc, &text, &names, &files)?;
    }
    let origins = origins_of(alloc, &text, &names, &files)?;
    Ok(Joined {
        text: joined,
        origins,
    })
}

// A text with nothing behind it.
fn alone(alloc: Global, text: Vec<u8>) -> Joined {
    Joined {
        text,
        origins: Vec::new(alloc),
    }
}

// Where the lines of each file begin behind a text.
fn origins_of(
    alloc: Global,
    text: &[u8],
    names: &[String],
    files: &[Vec<u8>],
) -> Result<Vec<Origin>, AllocError> {
    let mut origins = Vec::new(alloc);
    let mut before = lines(alloc, text)?.len() as u64;
    for (name, file) in names.iter().zip(files) {
        let name = String::from_str(alloc, name.as_str())?;
        origins.push(Origin { name, before })?;
        before = before.saturating_add(lines(alloc, file)?.len() as u64);
    }
    Ok(origins)
}

// Reads the files that a network file uses. Whatever their names are, they have no more bytes than its text leaves of what
// a network file may have: one file may have many names.
fn read_used<F: Shelf>(
    alloc: Global,
    shelf: &mut F,
    net_name: &str,
    net: &[u8],
    text_length: usize,
) -> Result<Used, UsedStop> {
    let mut names = Vec::new(alloc);
    let mut files = Vec::new(alloc);
    let mut length = text_length as u64;
    add_used(alloc, &mut names, net_name, net_name, net)?;
    for place in 0..FILES {
        let Some(name) = names.get(place) else {
            break;
        };
        let name = String::from_str(alloc, name.as_str())?;
        let left = FILE_LIMIT.saturating_sub(length);
        let file = match read_file(alloc, shelf, name.as_str(), left) {
            Ok(file) => file,
            Err(stop) => return Err(UsedStop::Stop(read_stop(alloc, stop, name.as_str()))),
        };
        length = length.saturating_add(file.len() as u64);
        add_used(alloc, &mut names, net_name, name.as_str(), &file)?;
        files.push(file)?;
    }
    Ok(Used { names, files })
}

// The files that one uses, behind those that are known. None is used twice by one name, and the network file by none by its own.
fn add_used(
    alloc: Global,
    names: &mut Vec<String>,
    net_name: &str,
    using: &str,
    bytes: &[u8],
) -> Result<(), UsedStop> {
    let used = used_of(alloc, bytes)?;
    for file in &used {
        let Some(name) = found_from(alloc, using, file.as_slice())? else {
            return Err(refused(alloc, file, b" is no name of a file")?);
        };
        if name.as_str() == net_name || is_listed(names, name.as_str()) {
            return Err(refused(alloc, file, b" is used twice")?);
        }
        if names.len() >= FILES {
            return Err(refused(alloc, file, b" is one file too many")?);
        }
        names.push(name)?;
    }
    Ok(())
}

fn is_listed(names: &[String], name: &str) -> bool {
    names.iter().any(|known| known.as_str() == name)
}

fn refused(alloc: Global, file: &Text, reason: &[u8]) -> Result<UsedStop, AllocError> {
    let mut line = Vec::from_slice(alloc, b"network refused: ")?;
    line.extend_from_slice(file.as_slice())?;
    line.extend_from_slice(reason)?;
    line.push(b'\n')?;
    Ok(UsedStop::Refused { line, told: None })
}

// The name of a file that another one uses, as seen from the folder in which the program runs: it is found from the folder of the file that uses it.
fn found_from(alloc: Global, using: &str, file: &[u8]) -> Result<Option<String>, AllocError> {
    let mut name = Vec::new(alloc);
    if file.first() != Some(&b'/') {
        name.extend_from_slice(folder_of(using.as_bytes()))?;
    }
    name.extend_from_slice(file)?;
    Ok(String::from_utf8(name).ok())
}

// The folder in a name, with the slash behind it.
fn folder_of(name: &[u8]) -> &[u8] {
    let mut end: usize = 0;
    for (place, byte) in name.iter().enumerate() {
        if *byte == b'/' {
            end = place.saturating_add(1);
        }
    }
    name.get(..end).unwrap_or(name)
}

// The fault of a line of a text.
fn fault_in(alloc: Global, text: &[u8]) -> Result<Option<NetFault>, AllocError> {
    match parse(alloc, text) {
        Ok(_) => Ok(None),
        Err(ParseStop::Fault(fault)) => Ok(Some(fault)),
        Err(ParseStop::NoMemory) => Err(AllocError),
    }
}

// Whether the subnets of each file have no fault, behind those of the files before it.
fn check_used(
    alloc: Global,
    text: &[u8],
    names: &[String],
    files: &[Vec<u8>],
) -> Result<(), UsedStop> {
    for place in 0..files.len() {
        let joined = join(alloc, text, &files[..=place])?;
        if let Some(fault) = fault_in(alloc, &joined)? {
            let origins = origins_of(alloc, text, names, &files[..=place])?;
            let told = Joined {
                text: joined,
                origins,
            };
            return Err(faulty(alloc, told, fault)?);
        }
    }
    Ok(())
}

// The last of the files of a text has this fault.
fn faulty(alloc: Global, told: Joined, fault: NetFault) -> Result<UsedStop, AllocError> {
    let (name, before) = match told.origins.last() {
        Some(origin) => (origin.name.as_bytes(), origin.before),
        None => (b"".as_slice(), 0),
    };
    let fault = NetFault {
        line: fault.line.saturating_sub(before),
        reason: fault.reason,
    };
    let told_line = Stop::Refused(NetRefusal::Line(fault)).text(alloc)?;
    let head = b"network refused: ".as_slice();
    let mut line = Vec::from_slice(alloc, head)?;
    line.extend_from_slice(name)?;
    line.extend_from_slice(b": ")?;
    line.extend_from_slice(told_line.get(head.len()..).unwrap_or(b"\n"))?;
    Ok(UsedStop::Refused {
        line,
        told: Some(told),
    })
}
