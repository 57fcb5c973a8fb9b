//! Two processes in a circle, each of which waits for the other.
use flow_catalogue::Std;
use flow_component::NoGate;
use flow_cycle::{Waits, cycle};
use flow_machine::{Block, Net, Thought, solo};
use flow_rig::{plan_of_text, started};
use std::process::Abort;
use std::test::Fail;

const CIRCLE: &[u8] = b"flow 1\nA(Passthru) OUT -> IN B(Passthru)\nB OUT -> IN A\n";

/// What a process waits for, after its work.
fn block(rt: &impl Abort, net: &mut Net<Std>, process: u32) -> Option<Block> {
    assert!(rt; process < net.processes());
    match net.think(process, &NoGate) {
        Thought::Wishing => net.block(process),
        _ => panic!(rt; "no room, or a failure"),
    }
}

fn round(process: u32, connection: u32, to: u32) -> Waits {
    Waits {
        process,
        connection,
        to,
    }
}

#[test]
fn a_circle_stays_dormant(rt: HostRuntime) -> Result<(), Fail> {
    let net = started(rt.alloc(), CIRCLE, b"")?;
    let mut net = match solo(rt.alloc(), net) {
        Ok(closed) => closed.into_net(),
        Err(closed) => {
            closed.discard();
            return Err("memory ran out".into());
        }
    };
    assert_eq!(rt; net.processes(), 2);
    assert_eq!(rt; net.turns_made(), 0);
    for process in 0..2 {
        assert_eq!(rt; block(&rt, &mut net, process), Some(Block::Dormant));
    }
    let plan = match plan_of_text(rt.alloc(), CIRCLE) {
        Ok(plan) => plan,
        Err(_) => {
            net.discard();
            return Err("no plan".into());
        }
    };
    let found = cycle(rt.alloc(), &plan, &net);
    net.discard();
    let Some(waits) = found? else {
        return Err("no cycle".into());
    };
    assert_eq!(rt;
        waits.as_slice(),
        [round(0, 1, 1), round(1, 0, 0)].as_slice()
    );
    Ok(())
}
