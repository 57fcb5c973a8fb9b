//! A valid plan with components that fit is ready to start: parts that fit the processes of a plan fit those of its start.
ghost use Rattle.flow_model.specs.Ready.{StartsPlans, SendsOut};

use flow_component::Component;

/// A valid plan with components that fit its processes starts well, and every output in it that sends to a connection finds that
/// connection.
pub fn a_valid_plan_is_ready<K: Component>()
    ensures starts { StartsPlans K.rules }
    ensures sends { SendsOut }
{}
