//! A network that is named call by call.
ghost use Rattle.std.specs.Prelude.{◌≡◌, ◌≤◌, [], length, IsTrue, IfOk};
ghost use Rattle.flow_net.specs.Drafts.{Answers, Becomes};
ghost use Rattle.flow_net.specs.Calls.{after_process, after_connect};
ghost use Rattle.flow_net.specs.Initials.{AfterInitial};
ghost use Rattle.flow_net.specs.Finishes.{Finishes};
ghost use Rattle.flow_net.specs.Kinds.{is_table};
ghost use Rattle.flow_plan.specs.Valid.{IsValid};
ghost use Rattle.flow_net.specs.Over.{IsOver};

use crate::counted::Counted;
use crate::draft::{DraftPort, DraftProcess, Link};
use crate::fault::{PlanFault, PlanStop};
use crate::{begin, check, find, finish, give, join, lay, options, templates};
use flow_items::Text;
use flow_limits::TEXT_LIMIT;
use flow_plan::{KindSpec, Plan, PortRef};
use std::alloc::Global;
use std::marker::Model;

/// Builds a plan from the names of its processes, connections and texts. A call that is refused leaves
/// the builder as it was.
#[derive(Drop)]
pub struct PlanBuilder {
    alloc: Global,
    kinds: Vec<KindSpec>,
    processes: Vec<DraftProcess>,
    ports: Vec<DraftPort>,
    links: Vec<Link>,
}

impl Model for PlanBuilder {
    ghost use Rattle.flow_net.specs.Drafts.{Draft};
    ghost use Rattle.flow_net.specs.Sound.{IsSound};

    ghost Value = { Draft };

    ghost view = { λ b. record { kinds = b.kinds.items; processes = b.processes.items; ports = b.ports.items; links = b.links.items } };

    ghost invariant = { λ b. IsSound (record { kinds = b.kinds.items; processes = b.processes.items; ports = b.ports.items; links = b.links.items }) };
}

impl PlanBuilder {
    /// A builder over a table of kinds that holds nothing yet. Takes no memory.
    pub fn new(alloc: Global, kinds: Vec<KindSpec>) -> Self
        requires { IsTrue (is_table kinds.items) }
        ensures { result ≡ record { kinds = kinds.items; processes = []; ports = []; links = [] } }
    {
        PlanBuilder {
            alloc,
            kinds,
            processes: Vec::new(alloc),
            ports: Vec::new(alloc),
            links: Vec::new(alloc),
        }
    }

    /// Names a process and its kind.
    pub fn process(&mut self, name: &[u8], kind: &[u8]) -> Result<(), PlanStop>
        ensures { Becomes (after_process self.old name.now kind.now) result self.old self.new }
    {
        let name = Text::from_slice(self.alloc, name)?;
        self.process_of(name, kind)
    }

    /// The same for a name that the plan is to own, which stays where it is.
    pub fn process_of(&mut self, name: Text, kind: &[u8]) -> Result<(), PlanStop>
        ensures { Becomes (after_process self.old name kind.now) result self.old self.new }
    {
        let alloc = self.alloc;
        let spec = begin::kind_for(
            alloc,
            self.kinds.as_slice(),
            self.processes.as_slice(),
            name.as_slice(),
            kind,
        )?;
        begin::begin(alloc, &mut self.processes, &mut self.ports, name, spec)?;
        Ok(())
    }

    /// Connects an output to an input. Two calls with one input give one connection with two senders.
    pub fn connect(
        &mut self,
        from: &[u8],
        out: &PortRef,
        capacity: Option<u32>,
        to: &[u8],
        into: &PortRef,
    ) -> Result<(), PlanStop>
        ensures { Becomes (after_connect self.old from.now out.now capacity to.now into.now) result self.old self.new }
    {
        let alloc = self.alloc;
        let ports = self.ports.as_slice();
        let links = self.links.as_slice();
        let (output, input) = find::ends(
            alloc,
            self.processes.as_slice(),
            ports,
            from,
            out,
            to,
            into,
        )?;
        join::may_join(
            alloc, ports, links, from, out, to, into, capacity, output, input,
        )?;
        join::join(
            alloc,
            &mut self.ports,
            &mut self.links,
            output,
            input,
            capacity,
        )?;
        Ok(())
    }

    /// Gives an input its text: to a stream port an initial packet, to an option port its value.
    pub fn initial(&mut self, text: &[u8], to: &[u8], into: &PortRef) -> Result<(), PlanStop>
        requires { length text.now ≤ TEXT_LIMIT }
        ensures { AfterInitial self.old text.now to.now into.now result self.new }
    {
        let alloc = self.alloc;
        let ports = self.ports.as_slice();
        let input = match give::input_for(alloc, self.processes.as_slice(), ports, to, into) {
            Ok(input) => input,
            Err(stop) => return Err(stop),
        };
        let fits = options::fits(alloc, ports, input, text)?;
        if !fits {
            return Err(PlanStop::Fault(give::option_fault(alloc, to, into)?));
        }
        let process = give::process_at(ports, input);
        let text = Text::from_slice(alloc, text)?;
        give::give(&mut self.processes, &mut self.ports, process, input, text)?;
        Ok(())
    }

    /// The plan that the calls described: the processes in their order, the connections in the order in
    /// which their inputs were first connected, and the senders in the order of the calls. That each template is one for its
    /// pattern is seen last, as the two texts may come in either order.
    pub fn finish(self) -> Result<Plan, PlanStop>
        ensures plan { Finishes self result }
        ensures valid { IfOk result IsValid }
        ensures over { IfOk result (IsOver self.kinds) }
    {
        let PlanBuilder {
            alloc,
            kinds: _,
            processes: begun,
            ports,
            links,
        } = self;
        let ports = ports.as_slice();
        let links = links.as_slice();
        check::check_ports(alloc, begun.as_slice(), ports)?;
        check::check_sum(links)?;
        let counts = finish::counts(alloc, ports)?;
        let draft = Counted::of(ports, counts.as_slice());
        let connections = finish::connections(alloc, draft, links)?;
        let tables = lay::tables(alloc, ports, begun.as_slice())?;
        let processes = lay::processes(alloc, draft, begun)?;
        templates::check_templates(alloc, processes.as_slice(), tables.as_slice())?;
        Ok(Plan::new(processes, connections, tables))
    }
}
