//! A reader of one line, a process that passes it on, and a writer, one turn after another.
use flow_machine::{Over, Turn};
use flow_rig::{next_turn, started};
use std::test::Fail;

const NET: &[u8] =
    b"flow 1\n'in' -> FILE Read(ReadLines)\nRead OUT -> IN Pass(Passthru)\nPass OUT -> IN Write(WriteLines)\n'out' -> FILE Write\n";

#[test]
fn a_line_goes_through_in_so_many_turns(rt: HostRuntime) -> Result<(), Fail> {
    let mut net = started(rt.alloc(), NET, b"x\n")?;
    for (stamp, process) in [0u32, 0, 1, 1, 0, 0, 0, 1].iter().enumerate() {
        assert_eq!(rt;
            next_turn(&mut net, *process),
            Some(Turn::Made(stamp as u32))
        );
    }
    assert_eq!(rt; next_turn(&mut net, 0), Some(Turn::Over(Over::Ended)));
    let parts = net.split();
    assert_eq!(rt; parts.channels.len(), 2);
    assert_eq!(rt;
        (parts.channels[0].puts(), parts.channels[0].takes()),
        (1, 1)
    );
    assert_eq!(rt;
        (parts.channels[1].puts(), parts.channels[1].takes()),
        (1, 0)
    );
    let there = parts.channels[1].packets();
    assert_eq!(rt; there.len(), 1);
    let id = there[0].id();
    assert_eq!(rt; (id.maker(), id.ordinal()), (0, 0));
    parts.join().discard();
    Ok(())
}
