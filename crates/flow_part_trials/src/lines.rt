//! Components that work by line, in the rig.

use flow_line::{LinePart, LineStop, TEXTS_FAULT, Texts};
use flow_part_rig::tried_line;
use std::test::Fail;

/// Sends each text twice, and none for an empty one; at the end it says so. It fails with 7 at the text x.
#[derive(Drop)]
struct Twice;

impl LinePart for Twice {
    fn line(&mut self, text: &[u8], out: &mut Texts) -> Result<(), LineStop> {
        if text == b"x".as_slice() {
            out.put(b"y")?;
            return Err(LineStop::Fail(7));
        }
        if !text.is_empty() {
            out.put(text)?;
            out.put(text)?;
        }
        Ok(())
    }

    fn end(&mut self, out: &mut Texts) -> Result<(), LineStop> {
        out.put(b"end")?;
        out.put(b"")
    }
}

/// Puts texts as long as it may.
#[derive(Drop)]
struct Flood;

impl LinePart for Flood {
    fn line(&mut self, text: &[u8], out: &mut Texts) -> Result<(), LineStop> {
        for _ in 0..2_000_000u32 {
            out.put(text)?;
        }
        Ok(())
    }

    fn end(&mut self, _out: &mut Texts) -> Result<(), LineStop> {
        Ok(())
    }
}

#[test]
fn texts_leave_in_order_and_brackets_pass(rt: HostRuntime) -> Result<(), Fail> {
    let out = tried_line(rt.alloc(), Twice, "(a\nb\n\nc\n)\n")?;
    assert_eq!(rt; out.as_str(), "(a\nb\nb\nc\nc\n)\nend\n\n");
    Ok(())
}

#[test]
fn what_it_put_before_a_failure_stays(rt: HostRuntime) -> Result<(), Fail> {
    let out = tried_line(rt.alloc(), Twice, "b\nx\nc\n")?;
    assert_eq!(rt; out.as_str(), "b\nb\nown fault 7\n");
    Ok(())
}

#[test]
fn no_more_texts_wait_than_may(rt: HostRuntime) -> Result<(), Fail> {
    let alloc = rt.alloc();
    let out = tried_line(alloc, Flood, "a\n")?;
    let wanted = format!(in alloc; "own fault {TEXTS_FAULT}\n")?;
    assert_eq!(rt; out.as_str(), wanted.as_str());
    Ok(())
}
