//! Which part each process has, where the parts are made for the network that is run.
use crate::kinds::both_kinds;
use crate::marked::{Drops, Marked, Tells};
use flow_plan::KindSpec;
use flow_rig::{CallStop, Called, call_alone_with};
use flow_supply::{Asked, Maker, supplied};
use std::alloc::{AllocError, Global};
use std::sync::Arc;
use std::sync::atomic::AtomicU64;
use std::test::Fail;

/// Two processes of each kind, one behind the other. Each tells its number when the one before it has ended.
const MIXED: &[u8] =
    b"flow 1\n'in' -> FILE Read(ReadLines)\nRead OUT -> IN A(Number)\n'7' -> START B(Lines)\nA OUT -> IN B\nB OUT -> IN C(Number)\nC OUT -> IN D(Lines)\n'9' -> START D\nD OUT -> IN Write(WriteLines)\n'out' -> FILE Write\n";

/// Ten processes of one kind.
const TEN: &[u8] =
    b"flow 1\n'in' -> FILE Read(ReadLines)\nRead OUT -> IN A(Lines)\nA OUT -> IN B(Lines)\nB OUT -> IN C(Lines)\nC OUT -> IN D(Lines)\nD OUT -> IN E(Lines)\nE OUT -> IN F(Lines)\nF OUT -> IN G(Lines)\nG OUT -> IN H(Lines)\nH OUT -> IN I(Lines)\nI OUT -> IN J(Lines)\nJ OUT -> IN Write(WriteLines)\n'out' -> FILE Write\n";

/// Its parts of the kind Lines tell the number at START, or 1 where there is none; those of the other kind tell 2.
#[derive(Drop)]
struct Telling {
    drops: Drops,
}

impl Maker for Telling {
    type Part = Marked;

    fn kinds(&self, alloc: Global) -> Result<Vec<KindSpec>, AllocError> {
        both_kinds(alloc)
    }

    fn make(&self, alloc: Global, asked: &Asked<'_>) -> Result<Marked, AllocError> {
        let number = match asked.kind() {
            b"Lines" => asked.number(b"START").unwrap_or(1),
            _ => 2,
        };
        Marked::new(alloc, &self.drops, Tells::Number(number))
    }
}

fn run(alloc: Global, maker: &Telling, net: &[u8]) -> Result<Called, CallStop> {
    let kinds = maker.kinds(alloc)?;
    let own = supplied(alloc, net, kinds, maker)?;
    call_alone_with(alloc, &["net"], &[("net", net), ("in", b"a\n")], own)
}

/// The part of a process is made of the options of that process, whichever processes stand before it.
#[test]
fn each_process_has_the_part_of_its_options(rt: HostRuntime) -> Result<(), Fail> {
    let alloc = rt.alloc();
    let drops: Drops = Arc::new(alloc, AtomicU64::new(0))?;
    let maker = Telling { drops };
    let called = run(alloc, &maker, MIXED)?;
    assert_eq!(rt; called.status, 0);
    assert!(rt; called.shelf.file("out") == Some(b"a\n2\n7\n2\n9\n".as_slice()));
    Ok(())
}

/// There are as many parts as the network has processes of the kind.
#[test]
fn a_network_has_as_many_parts_as_it_wants(rt: HostRuntime) -> Result<(), Fail> {
    let alloc = rt.alloc();
    let drops: Drops = Arc::new(alloc, AtomicU64::new(0))?;
    let maker = Telling { drops };
    let called = run(alloc, &maker, TEN)?;
    assert_eq!(rt; called.status, 0);
    assert!(rt; called.shelf.file("out") == Some(b"a\n1\n1\n1\n1\n1\n1\n1\n1\n1\n1\n".as_slice()));
    Ok(())
}
