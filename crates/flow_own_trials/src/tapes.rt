//! Tape files, byte by byte.
use flow_component::{Answer, Port, Wish};
use flow_own::{End, Tape};
use flow_packet::{Kind, PacketId};
use flow_tape::{TAPE_FILE_LIMIT, TapeStop, from_bytes, to_bytes};
use std::alloc::{AllocError, Global};
use std::test::Fail;

/// The tape of a part that numbers the packets `a` and `b`.
const NUMBERED: &[u8] = b"FLOWT001\x01\0\0\0\x06\0\0\0\
    \0\0\0\0\0\0\0\0\0\
    \x01\0\0\0\0\0\0\0\0\x01\x03\0\0\x001 a\x01\0\0\0\0\0\0\0\0\0\x01\0\0\0\0\0\0\0\0\x01\0\0\0\
    \x03\0\0\0\0\0\0\0\0\
    \x01\x01\0\0\0\0\0\0\0\x01\x03\0\0\x002 b\x01\0\x01\0\0\0\0\0\0\0\x01\0\0\0\0\x01\0\0\0\x01\0\0\0\
    \x03\0\0\0\0\0\0\0\0\
    \x02\0\0\0\x03";

/// Two tapes: one without entries, and one with the cases that the other file hasn't.
const CASES: &[u8] = b"FLOWT001\x02\0\0\0\0\0\0\0\x05\0\0\0\
    \x04\x02\x01\0\0\x02\0\0\0\0\0\0\x02\x07\0\0\0\
    \0\x03\0\0\0\0\0\0\x04\x05\x01\0\0\
    \0\0\x02\0\x01\0\0\0\0\0\0\x80\x02\0\0\0\0\0\0\0\x05\xff\0\0\0\0\0\0\0\
    \0\0\0\0\x06\xff\xff\xff\xff\
    \0\0\0\0\x07";

#[test]
fn a_tape_is_read(rt: HostRuntime) -> Result<(), Fail> {
    let mut read = from_bytes(rt.alloc(), NUMBERED).ok().ok_or("refused")?;
    assert_eq!(rt; NUMBERED.len(), 128);
    assert_eq!(rt; read.len(), 1);
    let tape = &mut read[0];
    assert_eq!(rt; tape.len(), 6);
    let got = PacketId::of_number(1);
    let entry = tape.entry(3)?.ok_or("no entry")?;
    assert_eq!(rt; entry.answer, Answer::Got(got));
    let (kind, text) = entry.made.as_ref().ok_or("nothing made")?;
    assert_eq!(rt; *kind, Kind::Normal);
    assert_eq!(rt; text.as_slice(), b"2 b".as_slice());
    assert_eq!(rt; entry.dropped.as_slice(), [got].as_slice());
    let sent = PacketId::of_number(4_294_967_297);
    assert_eq!(rt; entry.end, End::Wish(Wish::Send(Port(0), sent)));
    assert_eq!(rt; answer_at(tape, 4)?, Some(Answer::Sent));
    let last = tape.entry(5)?.ok_or("no entry")?;
    assert_eq!(rt; last.end, End::Wish(Wish::Deactivate));
    // What stands before what was read last is found too.
    assert_eq!(rt; answer_at(tape, 0)?, Some(Answer::Start));
    assert_eq!(rt; answer_at(tape, 6)?, None);
    Ok(())
}

/// Its entries take 9, 40, 9, 40, 9 and 5 bytes behind the 16 that stand before them.
#[test]
fn entries_have_their_sizes(rt: HostRuntime) -> Result<(), Fail> {
    let alloc = rt.alloc();
    for (count, end) in [(1, 25), (2, 65), (3, 74), (4, 114), (5, 123), (6, 128)] {
        let mut file = NUMBERED[..end].to_vec(alloc)?;
        file[12] = count;
        let read = from_bytes(alloc, &file).ok().ok_or("refused")?;
        assert_eq!(rt; read.len(), 1);
        assert_eq!(rt; read[0].len(), usize::from(count));
    }
    Ok(())
}

/// The number 2 in place of the first answer is an answer too.
#[test]
fn another_answer_is_read(rt: HostRuntime) -> Result<(), Fail> {
    let alloc = rt.alloc();
    let mut file = NUMBERED.to_vec(alloc)?;
    file[16] = 2;
    let mut read = from_bytes(alloc, &file).ok().ok_or("refused")?;
    assert_eq!(rt; to_bytes(alloc, &read)?.as_slice(), file.as_slice());
    assert_eq!(rt; read.len(), 1);
    let tape = &mut read[0];
    assert_eq!(rt; tape.len(), 6);
    assert_eq!(rt; answer_at(tape, 0)?, Some(Answer::End));
    Ok(())
}

/// The limit of a replay is the one that the documents tell.
#[test]
fn the_limit_is_as_told(rt: HostRuntime) {
    assert_eq!(rt; TAPE_FILE_LIMIT, 1_073_741_824);
}

/// What is read is written as what it was read from.
#[test]
fn tapes_are_written_as_they_were_read(rt: HostRuntime) -> Result<(), Fail> {
    let alloc = rt.alloc();
    for (file, tapes, entries) in [(NUMBERED, 1, 6), (CASES, 2, 5)] {
        let read = from_bytes(alloc, file).ok().ok_or("refused")?;
        assert_eq!(rt; read.len(), tapes);
        assert_eq!(rt; read[tapes - 1].len(), entries);
        assert_eq!(rt; to_bytes(alloc, &read)?.as_slice(), file);
    }
    Ok(())
}

/// Each beginning of a file ends too early, and what follows a file can't stand there.
#[test]
fn a_file_is_whole(rt: HostRuntime) -> Result<(), Fail> {
    let alloc = rt.alloc();
    for file in [NUMBERED, CASES] {
        for end in 0..file.len() {
            assert_eq!(rt; fault_of(alloc, &file[..end]), Some(end as u64));
        }
        let mut longer = file.to_vec(alloc)?;
        assert_eq!(rt; fault_of(alloc, &longer), None);
        longer.extend_from_slice(b"\0\0")?;
        assert_eq!(rt; fault_of(alloc, &longer), Some(file.len() as u64));
    }
    Ok(())
}

#[test]
fn faults_have_their_place(rt: HostRuntime) {
    let alloc = rt.alloc();
    let rows: [(&[u8], u64); 12] = [
        (b"FLOWT002", 7),
        (b"flowt001", 0),
        (b"FLOW", 4),
        // 129 tapes, and 128
        (b"FLOWT001\x81\0\0\0", 8),
        (b"FLOWT001\x80\0\0\0", 12),
        // a number that is too large already, and has no end
        (b"FLOWT001\x81\0\0", 11),
        // one entry more than a tape may have, and as many as it may have
        (b"FLOWT001\x01\0\0\0\x02\0\x10\0", 12),
        (b"FLOWT001\x01\0\0\0\x01\0\x10\0", 16),
        // no answer, no kind, no end
        (b"FLOWT001\x01\0\0\0\x01\0\0\0\x05", 16),
        (b"FLOWT001\x01\0\0\0\x01\0\0\0\0\x04", 17),
        // a text of one byte too many, and 4,097 packets
        (b"FLOWT001\x01\0\0\0\x01\0\0\0\0\x01\x01\0\x10\0", 18),
        (b"FLOWT001\x01\0\0\0\x01\0\0\0\0\0\x01\x10", 18),
    ];
    for (bytes, place) in rows {
        assert_eq!(rt; fault_of(alloc, bytes), Some(place));
    }
    assert_eq!(rt;
        fault_of(alloc, b"FLOWT001\x01\0\0\0\x01\0\0\0\0\0\0\0\x08"),
        Some(20)
    );
}

/// What the part was told at a place of its tape, if it has such a place.
fn answer_at(tape: &mut Tape, place: usize) -> Result<Option<Answer>, AllocError> {
    Ok(tape.entry(place)?.map(|entry| entry.answer))
}

/// The place of a file's fault; none where it has no fault, or there was no memory.
fn fault_of(alloc: Global, bytes: &[u8]) -> Option<u64> {
    match from_bytes(alloc, bytes) {
        Ok(_) => None,
        Err(TapeStop::Fault(fault)) => Some(fault.place),
        Err(TapeStop::NoMemory) => None,
    }
}
