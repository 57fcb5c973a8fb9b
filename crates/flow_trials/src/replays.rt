//! Runs, made again by their journals.
use flow_catalogue::Std;
use flow_component::Port;
use flow_journal::{Journal, Refusal, ReplayStop, replay};
use flow_limits::RUN_LIMIT;
use flow_machine::{Block, Net, Status, solo};
use flow_rig::started;
use std::alloc::{AllocError, Global};
use std::process::Abort;
use std::test::Fail;

/// A reader and a writer.
const CHAIN: &[u8] =
    b"flow 1\n'i' -> FILE Read(ReadLines)\nRead OUT -> IN Write(WriteLines)\n'o' -> FILE Write\n";

/// A LoadBalance, which asks for levels, between a reader and two writers.
const LOAD: &[u8] =
    b"flow 1\n'i' -> FILE Read(ReadLines)\nRead OUT -> IN Load(LoadBalance)\nLoad OUT[0] -> IN A(WriteLines)\nLoad OUT[1] -> IN B(WriteLines)\n'o' -> FILE A\n'p' -> FILE B\n";

/// The journal of a run on one thread.
fn journal_of_run(alloc: Global, net: Net<Std>) -> Result<Journal, AllocError> {
    match solo(alloc, net) {
        Ok(closed) => {
            let journal = Journal::merge(alloc, &closed.net);
            closed.discard();
            journal
        }
        Err(closed) => {
            closed.discard();
            Err(AllocError)
        }
    }
}

fn all_ended(net: &Net<Std>) -> bool {
    for process in 0..net.processes() {
        if net.body(process).status() != Status::Ended {
            return false;
        }
    }
    true
}

/// Whether all processes have ended after a replay, or where it stopped.
fn replays(
    rt: &impl Abort,
    alloc: Global,
    net: Net<Std>,
    journal: &Journal,
) -> Result<bool, ReplayStop> {
    if journal.turns.len() > RUN_LIMIT {
        panic!(rt; "a long journal")
    }
    let closed = replay(alloc, net, journal)?;
    let ended = all_ended(&closed.net);
    closed.discard();
    Ok(ended)
}

fn stop_at(place: u64, process: u32, refusal: Refusal) -> Result<bool, ReplayStop> {
    Err(ReplayStop::NoTurn {
        place,
        process,
        refusal,
    })
}

/// The file of a run's journal.
fn file_of_run(rt: &impl Abort, alloc: Global, net: Net<Std>) -> Result<Vec<u8>, AllocError> {
    let journal = journal_of_run(alloc, net)?;
    if journal.turns.len() > RUN_LIMIT || journal.seen.len() > journal.turns.len() {
        panic!(rt; "a long journal")
    }
    journal.to_bytes(alloc)
}

#[test]
fn a_journal_is_made_again(rt: HostRuntime) -> Result<(), Fail> {
    let alloc = rt.alloc();
    let file = file_of_run(&rt, alloc, started(alloc, CHAIN, b"x\n")?)?;
    let whole: &[u8] = b"FLOWJ001\x0a\0\0\0\0\0\0\0\0\0\0\0\0\x01\x01\x01\x01\x01";
    assert_eq!(rt; file.as_slice(), whole);
    let rows: [(&[u8], Result<bool, ReplayStop>); 6] = [
        (whole, Ok(true)),
        // its last turn is missing
        (
            b"FLOWJ001\x09\0\0\0\0\0\0\0\0\0\0\0\0\x01\x01\x01\x01",
            Ok(false),
        ),
        // its sixth turn is of the reader, which has ended
        (
            b"FLOWJ001\x0a\0\0\0\0\0\0\0\0\0\0\0\0\0\x01\x01\x01\x01",
            stop_at(5, 0, Refusal::Over),
        ),
        // the writer was never woken
        (
            b"FLOWJ001\x01\0\0\0\0\0\0\0\x01",
            stop_at(0, 1, Refusal::Blocked(Block::Dormant)),
        ),
        // the writer waits for the reader
        (
            b"FLOWJ001\x06\0\0\0\0\0\0\0\0\0\x01\x01\x01\x01",
            stop_at(
                4,
                1,
                Refusal::Blocked(Block::Empty {
                    connection: 0,
                    port: Port(0),
                }),
            ),
        ),
        // there is no third process
        (
            b"FLOWJ001\x02\0\0\0\0\0\0\0\0\x02",
            stop_at(1, 2, Refusal::NoProcess),
        ),
    ];
    for (bytes, want) in rows {
        let journal = Journal::from_bytes(alloc, bytes).ok().ok_or("refused")?;
        let net = started(alloc, CHAIN, b"x\n")?;
        assert_eq!(rt; replays(&rt, alloc, net, &journal), want);
    }
    Ok(())
}

#[test]
fn the_numbers_that_were_seen_are_seen_again(rt: HostRuntime) -> Result<(), Fail> {
    let alloc = rt.alloc();
    let lines: &[u8] = b"a\nb\nc\nd\n";
    let file = file_of_run(&rt, alloc, started(alloc, LOAD, lines)?)?;
    // the file with its first seen number and its number of seen numbers, and with so many bytes behind
    let rows: [(u8, u8, &[u8], Result<bool, ReplayStop>); 4] = [
        (0, 8, b"", Ok(true)),
        // more than the capacity
        (11, 8, b"", stop_at(10, 1, Refusal::Seen)),
        // one that no turn asks for
        (0, 9, b"\0\0", stop_at(42, 0, Refusal::Seen)),
        // the last turn that asks finds none
        (0, 7, b"", stop_at(23, 1, Refusal::Seen)),
    ];
    assert_eq!(rt; file.len(), 16 + 42 + 16);
    for (first, count, behind, want) in rows {
        let mut bytes = file.to_vec(alloc)?;
        if bytes.len() == 74 {
            bytes[58] = first;
            bytes[12] = count;
        }
        bytes.extend_from_slice(behind)?;
        if count == 7 {
            bytes.truncate(72);
        }
        let journal = Journal::from_bytes(alloc, &bytes).ok().ok_or("refused")?;
        let net = started(alloc, LOAD, lines)?;
        assert_eq!(rt; replays(&rt, alloc, net, &journal), want);
    }
    Ok(())
}
