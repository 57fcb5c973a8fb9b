//! The gate of a run on one thread.
use flow_component::Gate;
use flow_machine::solo_past;
use flow_rig::started;
use std::sync::atomic::{AtomicU64, Ordering};
use std::test::Fail;

const NET: &[u8] =
    b"flow 1\n'in.txt' -> FILE Read(ReadLines)\nRead OUT -> IN Pass(Passthru)\nPass OUT -> IN Write(WriteLines)\n'out.txt' -> FILE Write\n";

/// A gate that counts how often it is passed.
#[derive(Drop)]
struct Count {
    passes: AtomicU64,
}

impl Gate for Count {
    fn pass(&self, _process: u32, _turns: u64) {
        self.passes.fetch_add(1, Ordering::SeqCst);
    }
}

/// Three lines are sent, received, sent and received: behind each of these twelve turns a component thinks, and passes the gate first. Behind the turn by
/// which a process ends nobody thinks.
#[test]
fn thoughts_pass_the_gate(rt: HostRuntime) -> Result<(), Fail> {
    let gate = Count {
        passes: AtomicU64::new(0),
    };
    let net = started(rt.alloc(), NET, b"x\ny\nz\n")?;
    let net = match solo_past(rt.alloc(), net, &gate) {
        Ok(closed) => closed.into_net(),
        Err(closed) => {
            closed.discard();
            return Err("memory ran out".into());
        }
    };
    let turns = u64::from(net.turns_made());
    net.discard();
    let passes = gate.passes.load(Ordering::SeqCst);
    assert!(rt; passes >= 12);
    assert!(rt; passes < turns);
    Ok(())
}
