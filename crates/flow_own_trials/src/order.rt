//! Which part each process takes, where a caller hands in two kinds.
ghost use Rattle.std.specs.Prelude.{IfOk};
ghost use Rattle.flow_offer.specs.Kinds.{AreOwnKinds};
ghost use Rattle.flow_load.specs.Offers.{offers_of, specs_of};

use crate::kinds::two_kinds;
use crate::marked::{Drops, Marked, Tells};
use flow_cli::OwnKind;
use flow_component::NoGate;
use flow_rig::{CallStop, Called, File, call_alone_with, call_by_workers_with};
use std::alloc::{AllocError, Global};
use std::sync::atomic::AtomicU64;
use std::sync::{Arc, Wait};
use std::test::Fail;
use std::thread::Threads;

/// Two processes of each kind, one behind the other. Each tells its number when the one before it has ended.
const MIXED: &[u8] =
    b"flow 1\n'in' -> FILE Read(ReadLines)\nRead OUT -> IN A(Number)\nA OUT -> IN B(Lines)\nB OUT -> IN C(Number)\nC OUT -> IN D(Lines)\nD OUT -> IN Write(WriteLines)\n'out' -> FILE Write\n";

const FILES: &[File<'static>] = &[("net", MIXED), ("in", b"a\n")];

/// What comes of it.
const TOLD: &[u8] = b"a\n11\n21\n12\n22\n";

// Two parts with these numbers.
fn pair(alloc: Global, drops: &Drops, one: u64, other: u64) -> Result<Vec<Marked>, AllocError> {
    let mut parts = Vec::new(alloc);
    parts.push(Marked::new(alloc, drops, Tells::Number(one))?)?;
    parts.push(Marked::new(alloc, drops, Tells::Number(other))?)?;
    Ok(parts)
}

// Both kinds, with two parts each.
fn two_pairs(alloc: Global, drops: &Drops) -> Result<Vec<OwnKind<Marked>>, AllocError>
    ensures { IfOk result (λ own. AreOwnKinds (specs_of (offers_of own.items))) }
{
    let lines = pair(alloc, drops, 21, 22)?;
    let numbers = pair(alloc, drops, 11, 12)?;
    two_kinds(alloc, lines, numbers)
}

fn run_alone(alloc: Global, drops: &Drops) -> Result<Called, CallStop> {
    let own = two_pairs(alloc, drops)?;
    call_alone_with(alloc, &["net"], FILES, own)
}

fn run_by_workers<R: Threads + Wait + Sync>(
    rt: &R,
    alloc: Global,
    drops: &Drops,
) -> Result<Called, CallStop> {
    let own = two_pairs(alloc, drops)?;
    call_by_workers_with(rt, alloc, &["--workers", "2", "net"], FILES, &NoGate, own)
}

/// The first process of a kind has the first part of that kind, whichever kinds stand before it, and the second one the second.
#[test]
fn each_process_has_the_next_part_of_its_kind(rt: HostRuntime) -> Result<(), Fail> {
    let alloc = rt.alloc();
    let drops: Drops = Arc::new(alloc, AtomicU64::new(0))?;
    let called = run_alone(alloc, &drops)?;
    assert_eq!(rt; called.status, 0);
    assert!(rt; called.shelf.file("out") == Some(TOLD));
    Ok(())
}

/// So it is by workers.
#[test]
fn each_process_has_the_next_part_of_its_kind_by_workers(rt: HostRuntime) -> Result<(), Fail> {
    let alloc = rt.alloc();
    let drops: Drops = Arc::new(alloc, AtomicU64::new(0))?;
    let called = run_by_workers(&rt, alloc, &drops)?;
    assert_eq!(rt; called.status, 0);
    assert!(rt; called.shelf.file("out") == Some(TOLD));
    Ok(())
}
