//! Why a call stops before its report, and what it prints then.
ghost use Rattle.std.specs.Prelude.{◌≡◌, ◌++◌, ◌∷◌, [], IfOk, OnOk, codes};
ghost use Rattle.flow_load.specs.Stops.{status_of, journal_refusal_text, reason_text, refusal_text, stop_of_replay, tapes_refusal_text, text_of, IsReadStop, IsWriteStop};
ghost use Rattle.flow_load.specs.declared.stop.Stop.TheVariants.{NoMemory};

use crate::status::Status;
use flow_expand::{put_fault, put_net_fault};
use flow_flat::ExpandFault;
use flow_items::Text;
use flow_journal::{Refusal as NoTurn, ReplayStop};
use flow_parse::NetFault;
use flow_text::{ReadStop, ShelfStop, put_decimal};
use std::alloc::{AllocError, Global};

/// Why a network file is refused. The order in which faults are looked for is this project's own.
#[derive(Debug, Drop)]
pub enum NetRefusal {
    /// A line of the file has a fault.
    Line(NetFault),
    /// The network that the file spells has a fault.
    Network(ExpandFault),
}

/// Why a journal is refused. Places are counted from 0.
#[derive(Debug, Drop)]
pub enum JournalRefusal {
    /// The byte at this place can't stand there in a journal's file, or the file ends there too early.
    Byte(u64),
    /// The turn at this place isn't one of the network, for this reason.
    Turn {
        place: u64,
        process: u32,
        refusal: NoTurn,
    },
}

/// Why tapes are refused.
#[derive(Debug, Drop)]
pub enum TapesRefusal {
    /// The byte at this place, counted from 0, can't stand there in a file of tapes, or the file ends there too early.
    Byte(u64),
    /// There are so many tapes, and not as many processes of kinds of the caller's own.
    Count(u64),
}

/// Why a call stops. The statuses and texts are this project's own.
#[derive(Debug, Drop)]
pub enum Stop {
    /// The words are no command line.
    Words,
    /// The network file is refused.
    Refused(NetRefusal),
    /// In a run the process of this name finds no part left of its kind, which is the caller's own.
    NoPart(Text),
    /// The file of a journal is refused, or its journal is no schedule of the network.
    JournalRefused(JournalRefusal),
    /// The tapes of a replay are refused.
    TapesRefused(TapesRefusal),
    /// The file of this name couldn't be read.
    ReadFault(String),
    /// The file of this name couldn't be written.
    WriteFault(String),
    /// The file of this name is longer than its limit.
    TooLong(String),
    NoMemory,
}

impl From<AllocError> for Stop {
    ghost from_gives = { λ _ e. e ≡ NoMemory };

    fn from(_: AllocError) -> Self {
        Stop::NoMemory
    }
}

impl Stop {
    /// The status with which this stop ends the program.
    pub fn status(&self) -> Status
        ensures { result ≡ status_of self.now }
    {
        match self {
            Stop::Words => Status::Words,
            Stop::Refused(_) => Status::Refused,
            Stop::NoPart(_) => Status::Refused,
            Stop::JournalRefused(_) => Status::JournalRefused,
            Stop::TapesRefused(_) => Status::TapesRefused,
            Stop::ReadFault(_) => Status::ReadFault,
            Stop::WriteFault(_) => Status::WriteFault,
            Stop::NoMemory => Status::NoMemory,
            Stop::TooLong(_) => Status::TooLong,
        }
    }

    /// The line that is printed for this stop.
    pub fn text(&self, alloc: Global) -> Result<Vec<u8>, AllocError>
        ensures { IfOk result (λ text. text.items ≡ text_of self.now) }
    {
        match self {
            Stop::Words => line(
                alloc,
                b"usage: flow [--workers N] [--journal FILE] [--check] [--determinate] [--kinds] [--replay FILE] [--make N] [--tapes FILE] [NETFILE]",
                b"",
            ),
            Stop::Refused(refusal) => refused_line(alloc, refusal),
            Stop::NoPart(process) => line(alloc, b"network refused: no part ", process.as_slice()),
            Stop::JournalRefused(refusal) => journal_line(alloc, refusal),
            Stop::TapesRefused(refusal) => tapes_line(alloc, refusal),
            Stop::ReadFault(name) => line(alloc, b"read fault: ", name.as_bytes()),
            Stop::WriteFault(name) => line(alloc, b"write fault: ", name.as_bytes()),
            Stop::NoMemory => line(alloc, b"no memory", b""),
            Stop::TooLong(name) => line(alloc, b"too long: ", name.as_bytes()),
        }
    }
}

// The line for a refused network.
fn refused_line(alloc: Global, refusal: &NetRefusal) -> Result<Vec<u8>, AllocError>
    ensures { IfOk result (λ text. text.items ≡ codes "network refused: " ++ refusal_text refusal.now ++ 10 ∷ []) }
{
    let mut text = b"network refused: ".to_vec(alloc)?;
    put_refusal(&mut text, refusal)?;
    text.push(10)?;
    Ok(text)
}

fn put_refusal(text: &mut Vec<u8>, refusal: &NetRefusal) -> Result<(), AllocError>
    ensures { OnOk result (text.new.items ≡ text.old.items ++ refusal_text refusal.now) }
{
    match refusal {
        NetRefusal::Line(fault) => put_net_fault(text, fault),
        NetRefusal::Network(fault) => put_fault(text, fault),
    }
}

// The line for a refused journal.
fn journal_line(alloc: Global, refusal: &JournalRefusal) -> Result<Vec<u8>, AllocError>
    ensures { IfOk result (λ text. text.items ≡ codes "journal refused: " ++ journal_refusal_text refusal.now ++ 10 ∷ []) }
{
    let mut text = b"journal refused: ".to_vec(alloc)?;
    put_journal_refusal(&mut text, refusal)?;
    text.push(10)?;
    Ok(text)
}

fn put_journal_refusal(text: &mut Vec<u8>, refusal: &JournalRefusal) -> Result<(), AllocError>
    ensures { OnOk result (text.new.items ≡ text.old.items ++ journal_refusal_text refusal.now) }
{
    match refusal {
        JournalRefusal::Byte(place) => {
            text.extend_from_slice(b"byte ")?;
            put_decimal(text, *place)
        }
        JournalRefusal::Turn {
            place,
            process,
            refusal,
        } => {
            text.extend_from_slice(b"entry ")?;
            put_decimal(text, *place)?;
            text.extend_from_slice(b": process ")?;
            put_decimal(text, u64::from(*process))?;
            text.push(32)?;
            text.extend_from_slice(reason(refusal))
        }
    }
}

// The line for refused tapes.
fn tapes_line(alloc: Global, refusal: &TapesRefusal) -> Result<Vec<u8>, AllocError>
    ensures { IfOk result (λ text. text.items ≡ codes "tapes refused: " ++ tapes_refusal_text refusal.now ++ 10 ∷ []) }
{
    let mut text = b"tapes refused: ".to_vec(alloc)?;
    put_tapes_refusal(&mut text, refusal)?;
    text.push(10)?;
    Ok(text)
}

fn put_tapes_refusal(text: &mut Vec<u8>, refusal: &TapesRefusal) -> Result<(), AllocError>
    ensures { OnOk result (text.new.items ≡ text.old.items ++ tapes_refusal_text refusal.now) }
{
    match refusal {
        TapesRefusal::Byte(place) => {
            text.extend_from_slice(b"byte ")?;
            put_decimal(text, *place)
        }
        TapesRefusal::Count(count) => {
            text.extend_from_slice(b"count ")?;
            put_decimal(text, *count)
        }
    }
}

// Why a process made no turn.
fn reason(refusal: &NoTurn) -> &'static [u8]
    ensures { result.now ≡ reason_text refusal.now }
{
    match refusal {
        NoTurn::NoProcess => b"unknown",
        NoTurn::Over => b"over",
        NoTurn::Blocked(_) => b"blocked",
        NoTurn::Seen => b"seen",
    }
}

fn line(alloc: Global, head: &[u8], name: &[u8]) -> Result<Vec<u8>, AllocError>
    ensures { IfOk result (λ text. text.items ≡ head.now ++ name.now ++ 10 ∷ []) }
{
    let mut text = head.to_vec(alloc)?;
    text.extend_from_slice(name)?;
    text.push(10)?;
    Ok(text)
}

/// The stop of a file that wasn't read.
pub fn read_stop(alloc: Global, stop: ReadStop, name: &str) -> Stop
    ensures { IsReadStop stop name.now result }
{
    let Ok(name) = String::from_str(alloc, name) else {
        return Stop::NoMemory;
    };
    match stop {
        ReadStop::Fault => Stop::ReadFault(name),
        ReadStop::TooLong(_) => Stop::TooLong(name),
        ReadStop::NoMemory => Stop::NoMemory,
    }
}

/// The stop of a file that wasn't written.
pub fn write_stop(alloc: Global, stop: ShelfStop, name: &str) -> Stop
    ensures { IsWriteStop stop name.now result }
{
    match stop {
        ShelfStop::NoMemory => Stop::NoMemory,
        ShelfStop::Fault => match String::from_str(alloc, name) {
            Ok(name) => Stop::WriteFault(name),
            Err(_) => Stop::NoMemory,
        },
    }
}

/// The stop of a replay that stopped: the journal isn't a schedule of its network, or memory was wanting.
pub fn replay_stop(stop: ReplayStop) -> Stop
    ensures { result ≡ stop_of_replay stop }
{
    match stop {
        ReplayStop::NoTurn {
            place,
            process,
            refusal,
        } => Stop::JournalRefused(JournalRefusal::Turn {
            place,
            process,
            refusal,
        }),
        ReplayStop::NoMemory => Stop::NoMemory,
    }
}
