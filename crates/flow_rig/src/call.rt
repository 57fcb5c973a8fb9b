//! Calls of the program over files in memory.
ghost use Rattle.flow_offer.specs.Kinds.{AreOwnKinds};
ghost use Rattle.flow_load.specs.Offers.{offers_of, specs_of};

use flow_cli::{Outcome, OwnKind, busy_top, needs_workers, plain_top};
use flow_component::Gate;
use flow_number::Number;
use flow_own::{Part, Tape};
use flow_text::{MemShelf, MemSink};
use std::alloc::{AllocError, Global};
use std::sync::Wait;
use std::thread::Threads;

/// How many bytes the files of a shelf, and what is printed, may have.
const ROOM: usize = 33_554_432;

/// How many bytes are moved at once where nothing else is asked.
const PIECE: usize = 65_536;

/// A file's name and its bytes.
pub type File<'a> = (&'a str, &'a [u8]);

/// What a call came to.
#[derive(Drop)]
pub struct Called {
    pub status: u8,
    /// How many turns the journal has.
    pub turns: usize,
    /// The tapes of the caller's own components, in the order of their processes.
    pub tapes: Vec<Tape>,
    pub printed: Vec<u8>,
    pub shelf: MemShelf,
}

/// Why nothing was called.
#[derive(Clone, Copy, Debug, PartialEq, Eq, Drop)]
pub enum CallStop {
    /// The words ask for workers where there are none, or for none where there are some.
    OtherEngine,
    NoMemory,
}

impl From<AllocError> for CallStop {
    fn from(_: AllocError) -> Self {
        CallStop::NoMemory
    }
}

fn shelf_of(alloc: Global, named: &[File]) -> Result<MemShelf, AllocError> {
    let mut files = Vec::new(alloc);
    for (name, bytes) in named {
        files.push((String::from_str(alloc, *name)?, bytes.to_vec(alloc)?))?;
    }
    let (reads, writes) = (Vec::new(alloc), Vec::new(alloc));
    Ok(MemShelf::new(alloc, files, PIECE, ROOM, reads, writes))
}

fn sink_of(alloc: Global) -> Result<MemSink, AllocError> {
    MemSink::new(alloc, PIECE, ROOM, Vec::new(alloc))
}

fn words_of(alloc: Global, line: &[&str]) -> Result<Vec<String>, AllocError> {
    let mut words = Vec::new(alloc);
    for word in line {
        words.push(String::from_str(alloc, *word)?)?;
    }
    Ok(words)
}

fn told(
    alloc: Global,
    outcome: Outcome,
    shelf: MemShelf,
    out: &MemSink,
) -> Result<Called, AllocError> {
    let Outcome {
        status,
        journal,
        tapes,
        crew: _,
    } = outcome;
    Ok(Called {
        status: status.code(),
        turns: journal.turns.len(),
        tapes,
        printed: out.bytes().to_vec(alloc)?,
        shelf,
    })
}

// No kinds of the caller's own. What parts they would have is of no matter.
fn no_kinds(alloc: Global) -> Vec<OwnKind<Number>>
    ensures { AreOwnKinds (specs_of (offers_of result.items)) }
{
    Vec::new(alloc)
}

/// A call with these words, which ask for no workers, over these files, where nothing fails, and with these kinds of the caller's own.
pub fn call_alone_with<P: Part>(
    alloc: Global,
    line: &[&str],
    files: &[File],
    own: Vec<OwnKind<P>>,
) -> Result<Called, CallStop>
    requires { AreOwnKinds (specs_of (offers_of own.items)) }
{
    let words = words_of(alloc, line)?;
    if needs_workers(alloc, &words)? {
        return Err(CallStop::OtherEngine);
    }
    let mut shelf = shelf_of(alloc, files)?;
    let mut out = sink_of(alloc)?;
    let mut err = sink_of(alloc)?;
    let outcome = plain_top(alloc, &words, &mut shelf, &mut out, &mut err, own);
    Ok(told(alloc, outcome, shelf, &out)?)
}

/// The same with the standard kinds alone.
pub fn call_alone(alloc: Global, line: &[&str], files: &[File]) -> Result<Called, CallStop> {
    call_alone_with(alloc, line, files, no_kinds(alloc))
}

/// A call with these words, which ask for workers, over these files, where nothing fails, and with these kinds of the caller's own.
pub fn call_by_workers_with<R: Threads + Wait + Sync, G: Gate + Sync, P: Part + Send>(
    rt: &R,
    alloc: Global,
    line: &[&str],
    files: &[File],
    gate: &G,
    own: Vec<OwnKind<P>>,
) -> Result<Called, CallStop>
    requires { AreOwnKinds (specs_of (offers_of own.items)) }
{
    let words = words_of(alloc, line)?;
    if !needs_workers(alloc, &words)? {
        return Err(CallStop::OtherEngine);
    }
    let mut shelf = shelf_of(alloc, files)?;
    let mut out = sink_of(alloc)?;
    let mut err = sink_of(alloc)?;
    let outcome = busy_top(rt, alloc, &words, &mut shelf, &mut out, &mut err, gate, own);
    Ok(told(alloc, outcome, shelf, &out)?)
}

/// The same with the standard kinds alone.
pub fn call_by_workers<R: Threads + Wait + Sync, G: Gate + Sync>(
    rt: &R,
    alloc: Global,
    line: &[&str],
    files: &[File],
    gate: &G,
) -> Result<Called, CallStop> {
    call_by_workers_with(rt, alloc, line, files, gate, no_kinds(alloc))
}
