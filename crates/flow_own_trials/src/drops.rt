//! When parts are dropped.
use crate::kinds::kind_of;
use crate::marked::{Drops, Marked, Tells};
use flow_rig::{CallStop, Called, call_alone_with};
use std::alloc::{AllocError, Global};
use std::sync::Arc;
use std::sync::atomic::{AtomicU64, Ordering};
use std::test::Fail;

/// Two processes of the kind, one behind the other. The second is told the end of its input when the first has ended.
const TWO: &[u8] =
    b"flow 1\n'in' -> FILE Read(ReadLines)\nRead OUT -> IN First(Number)\nFirst OUT -> IN Second(Number)\nSecond OUT -> IN Write(WriteLines)\n'out' -> FILE Write\n";

// A part that passes packets on, and one that tells of drops at the end.
fn parts(alloc: Global, drops: &Drops) -> Result<Vec<Marked>, AllocError> {
    let mut parts = Vec::new(alloc);
    parts.push(Marked::new(alloc, drops, Tells::Nothing)?)?;
    parts.push(Marked::new(alloc, drops, Tells::Drops)?)?;
    Ok(parts)
}

fn run(alloc: Global, drops: &Drops) -> Result<Called, CallStop> {
    let own = kind_of(alloc, parts(alloc, drops)?)?;
    call_alone_with(alloc, &["net"], &[("net", TWO), ("in", b"a\n")], own)
}

/// The second part sees that the first was dropped, while both tapes are still to be told. In the end both were dropped, each once.
#[test]
fn a_part_is_dropped_when_its_process_has_ended(rt: HostRuntime) -> Result<(), Fail> {
    let alloc = rt.alloc();
    let drops: Drops = Arc::new(alloc, AtomicU64::new(0))?;
    let called = run(alloc, &drops)?;
    assert_eq!(rt; called.status, 0);
    assert!(rt; called.shelf.file("out") == Some(b"a\n1\n".as_slice()));
    assert_eq!(rt; called.tapes.len(), 2);
    for tape in &called.tapes {
        assert!(rt; tape.len() >= 4);
    }
    assert_eq!(rt; drops.load(Ordering::SeqCst), 2);
    Ok(())
}
