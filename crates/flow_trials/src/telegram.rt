//! A run of the Telegram Problem, whose composition `flow_witness` tells.
use flow_machine::solo;
use flow_rig::started;
use std::test::Fail;

const NET: &[u8] =
    b"flow 1\n'in.txt' -> FILE Read(ReadLines)\nRead OUT -> IN Words(Words)\nWords OUT->(20) IN Fill(Fill)\n'12' -> SIZE Fill\nFill OUT -> IN Write(WriteLines)\n'out.txt' -> FILE Write\n";

#[test]
fn a_run_leaves_the_file_of_the_composition(rt: HostRuntime) -> Result<(), Fail> {
    let net = started(
        rt.alloc(),
        NET,
        b"To be or not to be\nthat is the question\n",
    )?;
    let net = match solo(rt.alloc(), net) {
        Ok(closed) => closed.into_net(),
        Err(closed) => {
            closed.discard();
            return Err("memory ran out".into());
        }
    };
    assert!(rt; 3 < net.processes());
    assert_eq!(rt;
        net.body(3).component().written(),
        Some(b"To be or not\nto be that\nis the\nquestion\n".as_slice())
    );
    net.discard();
    Ok(())
}
