//! The turns of a journal, made again.
ghost use Rattle.std.specs.Prelude.{◌≡◌, ◌≤◌, length};
ghost use Rattle.flow_offer.specs.Processes.{IsOfferedPlan};
ghost use Rattle.flow_load.specs.Components.{HasComponents};
ghost use Rattle.flow_cli.specs.Leaves.{MakesAgain};

use crate::ran::{PrintedReport, report_of};
use flow_catalogue::Std;
use flow_journal::{Journal, a_replay_of_a_net_is_scheduled, replay};
use flow_limits::RUN_LIMIT;
use flow_load::{Job, Stop, replay_stop};
use flow_machine::Net;
use flow_model::a_valid_plan_is_ready;
use flow_offer::own_components_fit;
use flow_plan::KindSpec;
use flow_played::Played;
use flow_report::a_report_tells_of_its_state;
use std::alloc::Global;

/// Makes the turns of a journal again in a network that has made none, and makes the report of what they lead to.
pub fn replay_net(
    alloc: Global,
    job: Job<Played<Std>>,
    journal: &Journal,
    own: &[KindSpec],
) -> Result<PrintedReport, Stop>
    requires offered { IsOfferedPlan own.now job.plan }
    requires components { HasComponents own.now job.plan job.components.items }
    requires few { length journal.now.turns ≤ RUN_LIMIT }
    ensures { MakesAgain job.plan job.components.items journal.now result }
{
    own_components_fit::<Std>();
    a_valid_plan_is_ready::<Played<Std>>();
    a_replay_of_a_net_is_scheduled::<Played<Std>>();
    a_report_tells_of_its_state::<Played<Std>>();
    let Job { plan, components } = job;
    let net = Net::start(alloc, &plan, components)?;
    match replay(alloc, net, journal) {
        Ok(closed) => {
            let report = report_of(alloc, &plan, &closed);
            closed.discard();
            Ok(report?)
        }
        Err(stop) => Err(replay_stop(stop)),
    }
}
