//! Which networks are determinate.
use flow_determinate::determinate;
use flow_rig::plan_of_text;
use std::test::Fail;

const TELEGRAM: &[u8] =
    b"flow 1\n'in' -> FILE Read(ReadLines)\nRead OUT -> IN Words(Words)\nWords OUT -> IN Fill(Fill)\n'10' -> SIZE Fill\nFill OUT -> IN Write(WriteLines)\n'out' -> FILE Write\n";

const CIRCLE: &[u8] = b"flow 1\nA(Passthru) OUT -> IN B(Passthru)\nB OUT -> IN A\n";

const MERGE: &[u8] =
    b"flow 1\n'a' -> FILE A(ReadLines)\n'b' -> FILE B(ReadLines)\nA OUT -> IN Write(WriteLines)\nB OUT -> IN Write\n'out' -> FILE Write\n";

const BALANCE: &[u8] =
    b"flow 1\n'in' -> FILE Read(ReadLines)\nRead OUT -> IN Load(LoadBalance)\nLoad OUT[0] -> IN A(WriteLines)\nLoad OUT[1] -> IN B(WriteLines)\n'a' -> FILE A\n'b' -> FILE B\n";

#[test]
fn a_merge_and_a_balance_alone_are_not_determinate(rt: HostRuntime) -> Result<(), Fail> {
    for (text, is) in [
        (TELEGRAM, true),
        (CIRCLE, true),
        (MERGE, false),
        (BALANCE, false),
    ] {
        let plan = match plan_of_text(rt.alloc(), text) {
            Ok(plan) => plan,
            Err(_) => return Err("no plan".into()),
        };
        assert_eq!(rt; determinate(&plan), is);
    }
    Ok(())
}
