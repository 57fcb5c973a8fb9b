//! A journal's file is judged by its header before the rest of it is read.
use flow_journal::Journal;
use flow_load::{JournalRefusal, Stop, read_front, read_journal};
use flow_text::{MemShelf, Shelf, read_all};
use std::alloc::Global;
use std::process::Abort;

/// How many bytes a file in memory may have.
const ROOM: usize = 33_554_432;

/// The file of a journal with two turns, of the processes 0 and 1, which saw no number.
const SOUND: &[u8] = b"FLOWJ001\x02\x00\x00\x00\x00\x00\x00\x00\x00\x01";

/// A shelf with the file of these bytes, where the call of this number fails: the first opens the file, and the others read.
fn shelf(rt: &impl Abort, alloc: Global, bytes: &[u8], fails: u64) -> MemShelf {
    let name = String::from_str(alloc, "kept").expect(rt, "no memory");
    let bytes = bytes.to_vec(alloc).expect(rt, "no memory");
    let mut files = Vec::new(alloc);
    assert!(rt; files.push((name, bytes)).is_ok());
    let mut read_fails = Vec::new(alloc);
    assert!(rt; read_fails.push(fails).is_ok());
    MemShelf::new(alloc, files, 1, ROOM, read_fails, Vec::new(alloc))
}

/// What reading a journal's file of these bytes comes to where the call of this number fails.
fn read(rt: &impl Abort, alloc: Global, bytes: &[u8], fails: u64) -> Result<Journal, Stop> {
    let mut shelf = shelf(rt, alloc, bytes, fails);
    read_journal(alloc, &mut shelf, "kept")
}

/// Reads a front of 16 bytes, and then what is left of the file behind it.
fn use_front(rt: &impl Abort, alloc: Global, shelf: &mut MemShelf, bytes: &[u8]) {
    assert!(rt; shelf.open("kept").is_ok());
    let mut front = [0u8; 16];
    match read_front(shelf, &mut front) {
        Ok(count) => {
            assert!(rt; count == bytes.len().min(16));
            assert!(rt; bytes.iter().take(count).eq(front.iter().take(count)));
        }
        Err(_) => panic!(rt; "the front isn't read"),
    }
    match read_all(alloc, shelf, 100) {
        Ok(rest) => assert!(rt; rest.len() == bytes.len().saturating_sub(16)),
        Err(_) => panic!(rt; "the rest isn't read"),
    }
}

fn check_front(rt: &impl Abort, alloc: Global, bytes: &[u8]) {
    let mut shelf = shelf(rt, alloc, bytes, 0);
    use_front(rt, alloc, &mut shelf, bytes);
}

#[test]
fn a_front_ends_with_its_buffer_or_with_its_source(rt: HostRuntime) {
    check_front(&rt, rt.alloc(), SOUND);
    check_front(&rt, rt.alloc(), b"FLOWJ001");
    check_front(&rt, rt.alloc(), b"");
}

/// The bytes of a file, the number of a call that fails, and the place of the fault.
const FAULTY: &[(&[u8], u64, u64)] = &[
    (b"FLOWJ002\x02\x00\x00\x00\x00\x00\x00\x00\x00\x01", 3, 7),
    (b"FLOWJ001\x02\x00\x00\x00\x03\x00\x00\x00\x00\x01", 3, 12),
    (b"FLOWJ001\x02\x00\x00\x00", 0, 12),
    (
        b"FLOWJ001\x02\x00\x00\x00\x00\x00\x00\x00\x00\x01\x00",
        0,
        18,
    ),
];

#[test]
fn a_faulty_header_is_refused_before_the_rest_is_read(rt: HostRuntime) {
    for (bytes, fails, place) in FAULTY {
        match read(&rt, rt.alloc(), *bytes, *fails) {
            Err(Stop::JournalRefused(JournalRefusal::Byte(at))) => assert_eq!(rt; at, *place),
            _ => panic!(rt; "no byte is refused, of {place}"),
        }
    }
}

#[test]
fn behind_a_sound_header_the_rest_is_read(rt: HostRuntime) {
    match read(&rt, rt.alloc(), SOUND, 3) {
        Err(Stop::ReadFault(_)) => {}
        _ => panic!(rt; "no fault"),
    }
    match read(&rt, rt.alloc(), SOUND, 0) {
        Ok(journal) => assert!(rt; journal.turns.len() == 2),
        Err(_) => panic!(rt; "no journal"),
    }
}
