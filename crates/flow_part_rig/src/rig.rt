//! What comes of a part.

use crate::turns::{Halt, run};
use flow_component::{Component, Fail, OwnFail, Shape};
use flow_items::Items;
use flow_line::{ByLine, LinePart};
use flow_own::{Own, Part};
use flow_packet::Hands;
use flow_text::{lines, put_decimal};
use std::alloc::{AllocError, Global};

// One input and one output.
const SHAPE: Shape = Shape {
    inputs: 1,
    outputs: 1,
};

fn put_number(out: &mut Vec<u8>, words: &[u8], number: u64) -> Result<(), AllocError> {
    out.extend_from_slice(words)?;
    put_decimal(out, number)?;
    out.extend_from_slice(b"\n")
}

// The cause of a failure, as a report tells it.
fn put_cause(out: &mut Vec<u8>, cause: Fail) -> Result<(), AllocError> {
    match cause {
        Fail::Own(OwnFail::Own(number)) => put_number(out, b"own fault ", u64::from(number)),
        Fail::Own(OwnFail::Packet(id)) => put_number(out, b"own packet ", id),
        Fail::Own(OwnFail::Port(port)) => put_number(out, b"own port ", u64::from(port)),
        Fail::Own(OwnFail::TapeLimit) => out.extend_from_slice(b"own tape limit\n"),
        Fail::TextLimit(size) => put_number(out, b"text limit ", size),
        _ => out.extend_from_slice(b"hands limit\n"),
    }
}

// How it ended: a line for a failure, and one for packets that are left in the hands.
fn put_end(out: &mut Vec<u8>, halt: Halt, left: usize) -> Result<(), AllocError> {
    match halt {
        Halt::Ended => {}
        Halt::Failed(cause) => return put_cause(out, cause),
        Halt::NoMemory => return Err(AllocError),
    }
    if left > 0 {
        put_number(out, b"left ", left as u64)?;
    }
    Ok(())
}

/// What a part with one input and one output makes of these lines: each comes as a packet, and each packet that it sends is a line of the result. A line that
/// begins with a parenthesis is a bracket, as with the kind `Brackets`. Behind them a line tells why it failed, as a report does, or how many packets it holds
/// at its end. What isn't UTF-8 is shown by signs in its place.
pub fn tried<P: Part>(alloc: Global, part: P, input: &str) -> Result<String, AllocError> {
    let lines = lines(alloc, input.as_bytes())?;
    let used = Items::of(vec![in alloc; 0u32]?);
    let mut out = Vec::new(alloc);
    let mut own = Own::live(alloc, part, SHAPE, used);
    let mut hands = Hands::new(alloc, 0);
    let halt = run(&mut own, &mut hands, &lines, &mut out);
    let left = hands.packets().len();
    hands.discard();
    own.end();
    put_end(&mut out, halt, left)?;
    String::from_utf8_lossy(alloc, &out)
}

/// The same of a line part.
pub fn tried_line<L: LinePart>(alloc: Global, part: L, input: &str) -> Result<String, AllocError> {
    tried(alloc, ByLine::new(alloc, part), input)
}
