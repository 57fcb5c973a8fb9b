//! A LoadBalance between a reader and two writers, driven by hand up to its first level.
use flow_machine::Turn;
use flow_rig::{next_turn, seen_turn, started};
use std::test::Fail;

const NET: &[u8] =
    b"flow 1\n'in' -> FILE Read(ReadLines)\nRead OUT -> IN Load(LoadBalance)\nLoad OUT[0] -> IN A(WriteLines)\nLoad OUT[1] -> IN B(WriteLines)\n'a' -> FILE A\n'b' -> FILE B\n";

#[test]
fn a_load_balance_is_told_a_level_up_to_the_capacity(rt: HostRuntime) -> Result<(), Fail> {
    let mut net = started(rt.alloc(), NET, b"a\nb\nc\nd\n")?;
    for (stamp, process) in [0u32, 0, 1, 1].iter().enumerate() {
        assert_eq!(rt;
            next_turn(&mut net, *process),
            Some(Turn::Made(stamp as u32))
        );
    }
    assert_eq!(rt; seen_turn(&mut net, 1, 11), Some(None));
    assert_eq!(rt; net.turns_made(), 4);
    assert_eq!(rt; seen_turn(&mut net, 1, 10), Some(Some(Turn::Made(4))));
    assert!(rt; 1 < net.processes());
    assert_eq!(rt; net.body(1).levels(), [(4u32, 10u16)].as_slice());
    net.discard();
    Ok(())
}
