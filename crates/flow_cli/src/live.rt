//! The network of a call, from its start to what is told of it. Where no component is the caller's own it is a network of such components alone: a turn of these
//! takes fewer instructions, and contracts see no difference.
ghost use Rattle.std.specs.Prelude.{◌≡◌, ◌≤◌, IfOk, length};
ghost use Rattle.flow_limits.specs.declared.TheConstants.{CONNECTION_LIMIT};
ghost use Rattle.flow_model.specs.Plans.{StartsWell};
ghost use Rattle.flow_machine.specs.Starts.{StartsNet};
ghost use Rattle.flow_load.specs.Offers.{known, live_rules};

use flow_catalogue::Std;
use flow_machine::Net;
use flow_own::{Mixed, Part, Sorted, Unmixed, sorted_out};
use flow_plan::Plan;
use flow_runner::{Crew, Worked};
use std::alloc::{AllocError, Global};
use std::marker::Model;

/// The network of a call while its turns are made.
pub struct LiveNet<P: Part> {
    pub(crate) net: Sorted<Net<Unmixed<Std>>, Net<Mixed<Std, P>>>,
}

impl<P: Part> Model for LiveNet<P> {
    ghost use Rattle.std.specs.Coded.{codes};
    ghost use Rattle.flow_packet.specs.TreeCode.{tree_code};
    ghost use Rattle.flow_own.specs.Mixed.{of_either};
    ghost use Rattle.flow_cli.specs.Live.{AnyNet};

    ghost Value = { AnyNet };

    ghost coded = { Prim.hlevel (codes, tree_code) };

    ghost view = { λ n. of_either n.net };
}

/// The network of a call whose turns were made, and who made them.
pub struct LiveWorked<P: Part> {
    pub(crate) worked: Sorted<Worked<Unmixed<Std>>, Worked<Mixed<Std, P>>>,
}

impl<P: Part> Model for LiveWorked<P> {
    ghost use Rattle.std.specs.Coded.{codes};
    ghost use Rattle.flow_packet.specs.TreeCode.{tree_code};
    ghost use Rattle.flow_own.specs.Mixed.{of_either};
    ghost use Rattle.flow_cli.specs.Live.{AnyWorked};

    ghost Value = { AnyWorked };

    ghost coded = { Prim.hlevel (codes, tree_code) };

    ghost view = { λ w. of_either w.worked };
}

impl<P: Part> LiveNet<P> {
    /// A network of a plan with these components, one for each process, before its first turn.
    pub(crate) fn start(
        alloc: Global,
        plan: &Plan,
        components: Vec<Mixed<Std, P>>,
    ) -> Result<LiveNet<P>, AllocError>
        requires well { StartsWell live_rules plan.now (known components.items) }
        requires few { length plan.now.connections ≤ CONNECTION_LIMIT }
        ensures { IfOk result (λ net. StartsNet plan.now (known components.items) net) }
    {
        match sorted_out(alloc, components) {
            Ok(Sorted::Unmixed(components)) => LiveNet::start_unmixed(alloc, plan, components),
            Ok(Sorted::Mixed(components)) => LiveNet::start_mixed(alloc, plan, components),
            Err(AllocError) => Err(AllocError),
        }
    }

    // One in which no component is the caller's own.
    fn start_unmixed(
        alloc: Global,
        plan: &Plan,
        components: Vec<Unmixed<Std>>,
    ) -> Result<LiveNet<P>, AllocError>
        requires well { StartsWell live_rules plan.now (known components.items) }
        requires few { length plan.now.connections ≤ CONNECTION_LIMIT }
        ensures { IfOk result (λ net. StartsNet plan.now (known components.items) net) }
    {
        match Net::start(alloc, plan, components) {
            Ok(net) => Ok(LiveNet {
                net: Sorted::Unmixed(net),
            }),
            Err(AllocError) => Err(AllocError),
        }
    }

    // One in which some are.
    fn start_mixed(
        alloc: Global,
        plan: &Plan,
        components: Vec<Mixed<Std, P>>,
    ) -> Result<LiveNet<P>, AllocError>
        requires well { StartsWell live_rules plan.now (known components.items) }
        requires few { length plan.now.connections ≤ CONNECTION_LIMIT }
        ensures { IfOk result (λ net. StartsNet plan.now (known components.items) net) }
    {
        match Net::start(alloc, plan, components) {
            Ok(net) => Ok(LiveNet {
                net: Sorted::Mixed(net),
            }),
            Err(AllocError) => Err(AllocError),
        }
    }

    /// How many processes it has.
    pub(crate) fn processes(&self) -> u32
        ensures { result ≡ length self.now.bodies }
    {
        match &self.net {
            Sorted::Unmixed(net) => net.processes(),
            Sorted::Mixed(net) => net.processes(),
        }
    }

    /// Gives the run up, and spends all that it holds.
    pub(crate) fn discard(self) {
        let LiveNet { net } = self;
        match net {
            Sorted::Unmixed(net) => net.discard(),
            Sorted::Mixed(net) => net.discard(),
        }
    }
}

impl<P: Part> LiveWorked<P> {
    /// That of a network in which no component is the caller's own.
    pub(crate) fn unmixed(worked: Worked<Unmixed<Std>>) -> LiveWorked<P>
        ensures { result ≡ worked }
    {
        LiveWorked {
            worked: Sorted::Unmixed(worked),
        }
    }

    /// That of one in which some are.
    pub(crate) fn mixed(worked: Worked<Mixed<Std, P>>) -> LiveWorked<P>
        ensures { result ≡ worked }
    {
        LiveWorked {
            worked: Sorted::Mixed(worked),
        }
    }

    /// The network, and who made its turns.
    pub(crate) fn into_net(self) -> (LiveNet<P>, Crew)
        ensures net { result.0 ≡ self.closed.net }
        ensures crew { result.1 ≡ self.crew }
    {
        let LiveWorked { worked } = self;
        let (net, crew) = match worked {
            Sorted::Unmixed(Worked { closed, crew }) => (Sorted::Unmixed(closed.into_net()), crew),
            Sorted::Mixed(Worked { closed, crew }) => (Sorted::Mixed(closed.into_net()), crew),
        };
        (LiveNet { net }, crew)
    }
}
