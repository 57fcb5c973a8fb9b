//! What keeps a process from its next turn, as the walk along the waiting cycle, the report and the drawing ask it.
ghost use Rattle.std.specs.Prelude.{◌≡◌, ◌<◌, length};
ghost use Rattle.flow_machine.specs.Nets.{block_at};
ghost use Rattle.flow_model.specs.Stages.{has_ended, owes_work};

use flow_component::Component;
use flow_machine::{Block, Net, Stage};

/// Whether a process at this stage is over without having failed.
pub fn has_ended(stage: Stage) -> bool
    ensures { result ≡ has_ended stage }
{
    match stage {
        Stage::Ended => true,
        _ => false,
    }
}

// Its work after an answer is still to come.
fn owes_work(stage: Stage) -> bool
    ensures { result ≡ owes_work stage }
{
    match stage {
        Stage::Told(_) => true,
        _ => false,
    }
}

/// What blocks a process. One whose work is still to come isn't blocked, whatever it did last.
pub fn block_of<K: Component>(net: &Net<K>, process: u32) -> Option<Block>
    requires { process < length net.now.bodies }
    ensures { result ≡ block_at net.now process }
{
    if owes_work(net.body(process).stage()) {
        None
    } else {
        net.block(process)
    }
}
