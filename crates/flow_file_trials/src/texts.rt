// What no clause says: worked values, printed texts, and calls that succeed.
use flow_text::{
    MemShelf, MemSink, ReadStop, Shelf, Sink, WriteStop, decimal, lines, put_decimal, read_all,
    write_all,
};
use std::alloc::{AllocError, Global};
use std::fmt::Display;
use std::process::Abort;
use std::test::Fail;

const ROOM: usize = 33_554_432;

// Whether these are the lines of the text.
fn has_lines(alloc: Global, text: &[u8], wanted: &[&[u8]]) -> Result<bool, AllocError> {
    let rows = lines(alloc, text)?;
    let mut pairs = rows.iter().zip(wanted);
    Ok(rows.len() == wanted.len() && pairs.all(|pair| pair.0.as_slice() == *pair.1))
}

#[test]
fn a_line_ends_at_a_line_feed(rt: HostRuntime) -> Result<(), Fail> {
    let alloc = rt.alloc();
    assert!(rt; has_lines(alloc, b"a\r\nb", &[b"a", b"b"])?);
    assert!(rt; has_lines(alloc, b"", &[])?);
    assert!(rt; has_lines(alloc, b"\n", &[b""])?);
    assert!(rt; has_lines(alloc, b"a\r\r\n\nb\r", &[b"a\r", b"", b"b\r"])?);
    Ok(())
}

const SPELLED: &[(&str, Option<u64>)] = &[
    ("0", Some(0)),
    ("32", Some(32)),
    ("33", None),
    ("03", None),
    ("", None),
    ("+1", None),
    ("1 ", None),
];

#[test]
fn zero_is_spelled_by_one_digit(rt: HostRuntime) -> Result<(), Fail> {
    let mut out = b"n".to_vec(rt.alloc())?;
    put_decimal(&mut out, 0)?;
    put_decimal(&mut out, 12_884_901_888)?;
    assert!(rt; out.as_slice() == b"n012884901888".as_slice());
    for (spelled, number) in SPELLED {
        assert!(rt;
            decimal(spelled.as_bytes(), 0, 32) == *number,
            "of {spelled}"
        );
    }
    Ok(())
}

fn is_displayed(alloc: Global, stop: &impl Display, wanted: &str) -> Result<bool, AllocError> {
    let text = format!(in alloc; "{stop}")?;
    Ok(text.as_str() == wanted)
}

#[test]
fn stops_are_displayed(rt: HostRuntime) -> Result<(), Fail> {
    let alloc = rt.alloc();
    assert!(rt; is_displayed(alloc, &ReadStop::Fault, "read fault")?);
    assert!(rt; is_displayed(alloc, &ReadStop::TooLong(9), "longer than 9 bytes")?);
    assert!(rt; is_displayed(alloc, &ReadStop::NoMemory, "no memory")?);
    assert!(rt; is_displayed(alloc, &WriteStop::Fault(5), "write fault after 5 bytes")?);
    Ok(())
}

// A file of eleven bytes, and room for writes of five bytes each, of which the third one fails.
fn shelf(alloc: Global) -> Result<MemShelf, AllocError> {
    let name = String::from_str(alloc, "in")?;
    let bytes = b"hello world".to_vec(alloc)?;
    let mut files = Vec::new(alloc);
    files.push((name, bytes))?;
    let mut fails = Vec::new(alloc);
    fails.push(3)?;
    Ok(MemShelf::new(alloc, files, 5, ROOM, Vec::new(alloc), fails))
}

fn use_shelf(rt: &impl Abort, alloc: Global, shelf: &mut MemShelf) -> Result<(), Fail> {
    shelf.open("in").map_err(|_| "not opened")?;
    let bytes = read_all(alloc, shelf, 11)?;
    shelf.create("out").map_err(|_| "not created")?;
    assert!(rt; write_all(shelf, &bytes) == Err(WriteStop::Fault(5)));
    assert!(rt; shelf.file("out") == Some(b"hello".as_slice()));
    shelf.open("in").map_err(|_| "not opened")?;
    assert!(rt; read_all(alloc, shelf, 10) == Err(ReadStop::TooLong(10)));
    Ok(())
}

#[test]
fn a_shelf_in_memory_is_read_and_written(rt: HostRuntime) -> Result<(), Fail> {
    let mut shelf = shelf(rt.alloc())?;
    use_shelf(&rt, rt.alloc(), &mut shelf)
}

#[test]
fn a_sink_in_memory_takes_pieces(rt: HostRuntime) -> Result<(), Fail> {
    let alloc = rt.alloc();
    let mut sink = MemSink::new(alloc, 2, 4, Vec::new(alloc))?;
    assert!(rt; sink.write(b"abc") == Ok(2));
    assert!(rt; write_all(&mut sink, b"xyz") == Err(WriteStop::Fault(2)));
    assert!(rt; sink.bytes() == b"abxy".as_slice());
    Ok(())
}
