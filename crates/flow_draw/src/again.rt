//! The turns of a journal, made again, and what a drawing says of the state to which they lead.
ghost use Rattle.std.specs.Prelude.{◌≤◌, length};
ghost use Rattle.flow_draw.specs.Draws.{CanBegin, RemarksAfter};

use crate::remarks::remarks_of;
use flow_catalogue::Std;
use flow_drawing::Remarks;
use flow_journal::{Journal, a_replay_of_a_net_is_scheduled, replay};
use flow_limits::RUN_LIMIT;
use flow_load::{Stop, replay_stop};
use flow_machine::Net;
use flow_model::a_valid_plan_is_ready;
use flow_offer::own_components_fit;
use flow_plan::Plan;
use flow_played::Played;
use std::alloc::Global;

/// Makes the turns of a journal again in a network that has made none, and says what a drawing does of the state to which they lead.
pub fn remarks_after(
    alloc: Global,
    plan: &Plan,
    components: Vec<Played<Std>>,
    journal: &Journal,
) -> Result<Remarks, Stop>
    requires begins { CanBegin plan.now components.items }
    requires few { length journal.now.turns ≤ RUN_LIMIT }
    ensures { RemarksAfter plan.now components.items journal.now result }
{
    own_components_fit::<Std>();
    a_valid_plan_is_ready::<Played<Std>>();
    a_replay_of_a_net_is_scheduled::<Played<Std>>();
    let net = Net::start(alloc, plan, components)?;
    match replay(alloc, net, journal) {
        Ok(closed) => {
            let remarks = remarks_of(alloc, plan, &closed.net);
            closed.discard();
            Ok(remarks?)
        }
        Err(stop) => Err(replay_stop(stop)),
    }
}
