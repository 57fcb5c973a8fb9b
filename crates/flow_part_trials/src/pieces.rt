//! That readers and writers of pieces come to their wishes with ample memory, and how much of a long line is kept.

use flow_component::{Answer, Component, Fail as Cause, Stop};
use flow_packet::{Hands, Kind};
use flow_pieces::{KEPT_LIMIT, PIECE, ReadPieces, WritePieces};
use std::alloc::{AllocError, Global};
use std::test::Fail;

// Gives a piece to a reader that wants one.
fn give(reader: &mut ReadPieces, piece: &[u8]) -> Result<(), Fail> {
    if !reader.wants() || piece.len() > PIECE {
        return Err("it wants no such piece".into());
    }
    reader.give(piece)?;
    Ok(())
}

// Gives so many pieces of so many bytes, in which there is no line feed.
fn give_many(
    alloc: Global,
    reader: &mut ReadPieces,
    times: usize,
    bytes: usize,
) -> Result<(), Fail> {
    let piece = vec![in alloc; b'x'; bytes]?;
    for _ in 0..times {
        give(reader, &piece)?;
    }
    Ok(())
}

// The text of the packet that a reader makes when it is started with empty hands, or why it makes none.
fn read(alloc: Global, reader: &mut ReadPieces) -> Result<Result<Vec<u8>, Stop>, AllocError> {
    let mut hands = Hands::new(alloc, 0);
    let wish = reader.resume(&mut hands, Answer::Start);
    let text = match hands.packets().first() {
        Some(packet) => packet.text().to_vec(alloc),
        None => Ok(Vec::new(alloc)),
    };
    hands.discard();
    let text = text?;
    match wish {
        Ok(_) => Ok(Ok(text)),
        Err(stop) => Ok(Err(stop)),
    }
}

// What a writer has once it got this packet.
fn write(alloc: Global, writer: &mut WritePieces, text: &[u8]) -> Result<(), Fail> {
    let mut hands = Hands::new(alloc, 0);
    let Ok(id) = hands.make(Kind::Open, text) else {
        hands.discard();
        return Err("no memory".into());
    };
    let wish = writer.resume(&mut hands, Answer::Got(id));
    hands.discard();
    if wish.is_err() {
        return Err("it got nothing".into());
    }
    Ok(())
}

#[test]
fn a_line_is_sent_once_its_line_feed_is_there(rt: HostRuntime) -> Result<(), Fail> {
    let mut reader = ReadPieces::new(rt.alloc());
    give(&mut reader, b"a\r")?;
    assert!(rt; matches!(read(rt.alloc(), &mut reader)?, Err(Stop::NoMemory)));
    give(&mut reader, b"\nb")?;
    assert!(rt;
        matches!(read(rt.alloc(), &mut reader)?, Ok(text) if text.as_slice() == b"a".as_slice())
    );
    assert!(rt; matches!(read(rt.alloc(), &mut reader)?, Err(Stop::NoMemory)));
    reader.end_file();
    assert!(rt;
        matches!(read(rt.alloc(), &mut reader)?, Ok(text) if text.as_slice() == b"b".as_slice())
    );
    Ok(())
}

#[test]
fn a_line_that_is_too_long_is_counted_and_not_kept(rt: HostRuntime) -> Result<(), Fail> {
    let mut reader = ReadPieces::new(rt.alloc());
    give_many(rt.alloc(), &mut reader, 3, PIECE)?;
    assert!(rt; reader.kept() < KEPT_LIMIT);
    give(&mut reader, b"\r\nb\n")?;
    assert!(rt;
        matches!(
            read(rt.alloc(), &mut reader)?,
            Err(Stop::Fail(Cause::TextLimit(3_145_728)))
        )
    );
    Ok(())
}

#[test]
fn bytes_that_were_taken_are_gone(rt: HostRuntime) -> Result<(), Fail> {
    let mut writer = WritePieces::new(rt.alloc());
    write(rt.alloc(), &mut writer, b"a")?;
    write(rt.alloc(), &mut writer, b"b")?;
    assert_eq!(rt; writer.bytes(), b"(a\n(b\n".as_slice());
    writer.let_go();
    assert_eq!(rt; writer.bytes().len(), 0);
    Ok(())
}
