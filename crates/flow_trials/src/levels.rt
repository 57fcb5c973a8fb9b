//! What a process that asks for a level may be told.
use flow_machine::{Net, Turn};
use flow_rig::{Asker, askers, next_turn, plan_of_text, seen_turn};
use std::alloc::Global;
use std::test::Fail;

const NET: &[u8] =
    b"flow 1\n'in' -> FILE Read(ReadLines)\nRead OUT -> IN Pass(Passthru)\nPass OUT -> IN Write(WriteLines)\n'out' -> FILE Write\n";

/// The network at its start. Its connections take 10 packets each.
fn started(alloc: Global) -> Result<Net<Asker>, Fail> {
    let plan = plan_of_text(alloc, NET)?;
    let components = askers(alloc, &plan)?;
    Ok(Net::start(alloc, &plan, components)?)
}

#[test]
fn a_level_is_told_up_to_the_capacity(rt: HostRuntime) -> Result<(), Fail> {
    let mut net = started(rt.alloc())?;
    assert_eq!(rt; next_turn(&mut net, 0), Some(Turn::Made(0)));
    assert_eq!(rt; seen_turn(&mut net, 0, 11), Some(None));
    assert_eq!(rt; net.turns_made(), 1);
    assert_eq!(rt; seen_turn(&mut net, 0, 10), Some(Some(Turn::Made(1))));
    assert!(rt; 0 < net.processes());
    assert_eq!(rt; net.body(0).levels(), [(1u32, 10u16)].as_slice());
    net.discard();
    Ok(())
}
