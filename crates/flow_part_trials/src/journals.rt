//! Journal files, byte by byte.
use flow_items::Items;
use flow_journal::{Header, Journal, JournalStop};
use std::alloc::Global;
use std::process::Abort;

/// Two processes with five turns each.
const FILE: &[u8] = b"FLOWJ001\x0a\0\0\0\0\0\0\0\0\0\0\0\0\x01\x01\x01\x01\x01";

/// Three turns, of which two saw the numbers 258 and 3.
const LEVELS: &[u8] = b"FLOWJ001\x03\0\0\0\x02\0\0\0\x02\x7f\x02\x02\x01\x03\0";

#[test]
fn a_journal_is_written(rt: HostRuntime) {
    let alloc = rt.alloc();
    let turns = [0u8, 0, 0, 0, 0, 1, 1, 1, 1, 1].to_vec(alloc);
    let journal = Journal {
        turns: Items::of(turns.expect(&rt, "no memory")),
        seen: Items::new(alloc),
    };
    let written = journal.to_bytes(alloc).expect(&rt, "no memory");
    assert!(rt; written.as_slice() == FILE);
}

#[test]
fn a_journal_with_levels_is_written_and_read(rt: HostRuntime) {
    let alloc = rt.alloc();
    let turns = [2u8, 127, 2].to_vec(alloc);
    let seen = [258u16, 3].to_vec(alloc);
    let journal = Journal {
        turns: Items::of(turns.expect(&rt, "no memory")),
        seen: Items::of(seen.expect(&rt, "no memory")),
    };
    let written = journal.to_bytes(alloc).expect(&rt, "no memory");
    assert!(rt; written.as_slice() == LEVELS);
    match Journal::from_bytes(alloc, LEVELS) {
        Ok(read) => {
            assert!(rt; read.turns.as_slice() == [2u8, 127, 2].as_slice());
            assert!(rt; read.seen.as_slice() == [258u16, 3].as_slice());
        }
        Err(_) => panic!(rt; "refused"),
    }
}

fn check_whole(rt: &impl Abort, alloc: Global, file: &[u8]) {
    for end in 0..file.len() {
        assert!(rt;
            fault_of(alloc, &file[..end]) == Some(end as u64),
            "at {end}"
        );
    }
    let mut longer = file.to_vec(alloc).expect(rt, "no memory");
    assert!(rt; fault_of(alloc, &longer).is_none());
    longer.extend_from_slice(b"\0\0").expect(rt, "no memory");
    assert!(rt; fault_of(alloc, &longer) == Some(file.len() as u64));
}

/// Each beginning of a file ends too early, and what follows a file can't stand there.
#[test]
fn a_file_is_whole(rt: HostRuntime) {
    check_whole(&rt, rt.alloc(), FILE);
    check_whole(&rt, rt.alloc(), LEVELS);
}

const FAULTS: &[(&[u8], u64)] = &[
    (b"FLOWJ002", 7),
    (b"flowj001", 0),
    (b"FLOW", 4),
    // one turn more than a run may have, and the file ends there
    (b"FLOWJ001\x01\0\0\x40", 8),
    // as many as a run may have
    (b"FLOWJ001\0\0\0\x40", 12),
    // more seen numbers than turns
    (b"FLOWJ001\x01\0\0\0\x02\0\0\0\0", 12),
];

#[test]
fn faults_have_their_place(rt: HostRuntime) {
    for (bytes, place) in FAULTS {
        assert!(rt; fault_of(rt.alloc(), *bytes) == Some(*place), "at {place}");
    }
}

fn check_header(rt: &impl Abort, alloc: Global, bytes: &[u8]) {
    let header = match Header::from_bytes(bytes) {
        Ok(header) => header,
        Err(_) => panic!(rt; "refused"),
    };
    assert!(rt; header.turns == 3 && header.seen == 2 && header.body_length() == 7);
    let read = match Journal::from_body(alloc, &header, &LEVELS[16..]) {
        Ok(read) => read,
        Err(_) => panic!(rt; "refused"),
    };
    let written = read.to_bytes(alloc).expect(rt, "no memory");
    assert!(rt; written.as_slice() == LEVELS);
}

const HEADER_FAULTS: &[(&[u8], u64)] = &[
    (b"FLOWJ001\x01\0\0\0\x02\0\0\0and more", 12),
    (b"FLOWJ001\x01\0\0\x40\0\0\0\0", 8),
    (b"FLOWJ001\x03\0\0\0\x02\0\0", 15),
];

/// A header is read off the first 16 bytes, and what follows them makes no difference. The body goes with it.
#[test]
fn a_header_is_judged_alone(rt: HostRuntime) {
    check_header(&rt, rt.alloc(), LEVELS);
    check_header(&rt, rt.alloc(), &LEVELS[..16]);
    for (bytes, place) in HEADER_FAULTS {
        match Header::from_bytes(*bytes) {
            Ok(_) => panic!(rt; "not refused"),
            Err(fault) => assert!(rt; fault.place == *place, "at {place}"),
        }
    }
}

/// The place of a file's fault; none where it has no fault, or there was no memory.
fn fault_of(alloc: Global, bytes: &[u8]) -> Option<u64> {
    match Journal::from_bytes(alloc, bytes) {
        Ok(_) => None,
        Err(JournalStop::Fault(fault)) => Some(fault.place),
        Err(JournalStop::NoMemory) => None,
    }
}
