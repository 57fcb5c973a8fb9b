//! The network of a race, and its start.
ghost use Rattle.std.specs.Prelude.{◌≡◌, IfOk, map};
ghost use Rattle.flow_bench.specs.Loaded.{loaded_as};
ghost use Rattle.flow_bench.specs.RaceRuns.{HasStarted};

use crate::race::loaded::Loaded;
use flow_catalogue::Std;
use flow_machine::Net;
use flow_model::a_valid_plan_is_ready;
use flow_rig::{TrialStop, plan_of_text, standard_components};
use std::alloc::{AllocError, Global};

/// Four branches side by side.
pub const BRANCHES: &[u8] = b"flow 1\n\
'in' -> FILE Read1(ReadLines)\nRead1 OUT -> IN Pass1(Passthru)\nPass1 OUT -> IN Drop1(Discard)\n\
'in' -> FILE Read2(ReadLines)\nRead2 OUT -> IN Pass2(Passthru)\nPass2 OUT -> IN Drop2(Discard)\n\
'in' -> FILE Read3(ReadLines)\nRead3 OUT -> IN Pass3(Passthru)\nPass3 OUT -> IN Drop3(Discard)\n\
'in' -> FILE Read4(ReadLines)\nRead4 OUT -> IN Pass4(Passthru)\nPass4 OUT -> IN Drop4(Discard)\n";

/// The same components, each with so many rounds of work.
fn load_all(alloc: Global, components: Vec<Std>, rounds: u32) -> Result<Vec<Loaded>, AllocError>
    ensures { IfOk result (λ loaded. loaded.items ≡ map (loaded_as rounds 0) components.items) }
{
    let mut loaded = Vec::new(alloc);
    for component in components {
        loaded.push(Loaded {
            component,
            rounds,
            sum: 0,
        })?;
    }
    Ok(loaded)
}

/// The network of a text at its start, with loaded components, each reader on the same bytes.
pub fn started(
    alloc: Global,
    text: &[u8],
    bytes: &[u8],
    rounds: u32,
) -> Result<Net<Loaded>, TrialStop>
    ensures { IfOk result (HasStarted text.now bytes.now rounds) }
{
    a_valid_plan_is_ready::<Loaded>();
    let plan = plan_of_text(alloc, text)?;
    let components = standard_components(alloc, &plan, bytes)?;
    let loaded = load_all(alloc, components, rounds)?;
    Ok(Net::start(alloc, &plan, loaded)?)
}
