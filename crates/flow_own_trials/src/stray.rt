//! A part that wishes to send a packet which it hasn't.
ghost use Rattle.std.specs.Prelude.{◌≡◌, None};

use crate::kinds::{again, kind_of};
use flow_component::{Answer, Port, Wish};
use flow_own::{Desk, Part, PartStop};
use flow_packet::PacketId;
use flow_rig::call_alone_with;
use std::marker::Model;
use std::test::Fail;

/// Whatever it is told, it wishes to send the packet with the number 5.
#[derive(Drop)]
pub struct Stray {
    answers: u64,
    last: Option<Result<Wish, PartStop>>,
}

impl Model for Stray {
    ghost use Rattle.flow_own.specs.Parts.{Seen};

    ghost Value = { Seen };

    ghost view = { λ s. record { answers = s.answers; last = s.last; acts = 0 } };
}

impl Stray {
    pub fn new() -> Stray
        ensures { result ≡ record { answers = 0; last = None; acts = 0 } }
    {
        Stray {
            answers: 0,
            last: None,
        }
    }
}

impl Part for Stray {
    ghost seen = { λ shown. shown };

    fn resume(&mut self, _desk: &mut Desk<'_>, _answer: Answer) -> Result<Wish, PartStop> {
        let said = Ok(Wish::Send(Port(0), PacketId::of_number(5)));
        self.answers = self.answers.saturating_add(1);
        self.last = Some(again(&said));
        said
    }
}

/// A reader, a process that numbers lines, and a writer.
const NUMBERING: &[u8] =
    b"flow 1\n'in' -> FILE Read(ReadLines)\nRead OUT -> IN Num(Number)\nNum OUT -> IN Write(WriteLines)\n'out' -> FILE Write\n";

/// What it reads.
const LINES: &[u8] = b"a\nb\n";

/// What a process can't do fails it, and its tape says so.
const STRAYED: &[u8] = b"verdict failed\n";

#[test]
fn a_packet_that_isnt_there_is_no_packet(rt: HostRuntime) -> Result<(), Fail> {
    let alloc = rt.alloc();
    let files: &[(&str, &[u8])] = &[("net", NUMBERING), ("in", LINES)];
    let mut parts = Vec::new(alloc);
    parts.push(Stray::new())?;
    let called = call_alone_with(alloc, &["net"], files, kind_of(alloc, parts)?)?;
    assert!(rt; called.printed.starts_with(STRAYED));
    let cause: &[u8] = b"\nfailed Num own packet 5\n";
    assert!(rt;
        called
            .printed
            .windows(cause.len())
            .any(|window| window == cause)
    );
    assert_eq!(rt; called.status, 5);
    Ok(())
}
