//! The plan of a text.
ghost use Rattle.std.specs.Prelude.{◌≡◌, Ok, Err, IsTrue, IfOk, IfErr, Result};
ghost use Rattle.std.specs.List.{flat_map};
ghost use Rattle.flow_net.specs.Kinds.{is_table};
ghost use Rattle.flow_plan.specs.Network.{Network};
ghost use Rattle.flow_net.specs.Over.{IsOver};
ghost use Rattle.flow_parse.specs.Values.{IsNetText};
ghost use Rattle.flow_flat.specs.declared.fault.ExpandFault.{ExpandFault};
ghost use Rattle.flow_flat.specs.Texts.{TextComesTo};
ghost use Rattle.flow_flat.specs.Told.{HasShortTexts, AfterMeant};
ghost use Rattle.flow_expand.specs.Outcomes.{Gives, Leaves, IfFault};
ghost use Rattle.flow_expand.specs.Tells.{main_meant, own_meant, HasShortSubnets, Ends, Told};

use crate::indexed::Indexed;
use crate::instances::instances;
use crate::named::subnet_called;
use crate::processes::{Apart, put_processes, subnets_apart};
use crate::recursion::met_inside_itself;
use crate::statements::put_statements;
use crate::stop::ExpandStop;
use flow_flat::ExpandFault;
use flow_items::Text;
use flow_net::PlanBuilder;
use flow_parse::NetText;
use flow_plan::{KindSpec, Plan};
use std::alloc::Global;

// Tells a builder the statements of main.
fn put_main(alloc: Global, text: &Indexed<'_>, builder: &mut PlanBuilder) -> Result<(), ExpandStop>
    requires { HasShortTexts text.now.main }
    ensures { Leaves result builder.new (λ outcome. AfterMeant builder.old (main_meant text.now) outcome) }
{
    put_statements(alloc, text, b"", &text.value().main, builder)
}

// Tells a builder the statements of the subnet that a process is.
fn put_own(
    alloc: Global,
    text: &Indexed<'_>,
    process: (Text, Text),
    builder: &mut PlanBuilder,
) -> Result<(), ExpandStop>
    requires { HasShortSubnets text.now }
    ensures { Leaves result builder.new (λ outcome. AfterMeant builder.old (own_meant text.now process) outcome) }
{
    let (name, kind) = process;
    let Some(part) = subnet_called(text, kind.as_slice()) else {
        return Ok(());
    };
    let mut begins = name;
    begins.push(b'.')?;
    put_statements(alloc, text, begins.as_slice(), part, builder)
}

fn put_subnets(
    alloc: Global,
    text: &Indexed<'_>,
    list: Vec<(Text, Text)>,
    builder: &mut PlanBuilder,
) -> Result<(), ExpandStop>
    requires { HasShortSubnets text.now }
    ensures { Leaves result builder.new (λ outcome. AfterMeant builder.old (flat_map (own_meant text.now) list.items) outcome) }
{
    'subnets: for process in list {
        put_own(alloc, text, process, builder)?;
    }
    Ok(())
}

// No subnet stands in itself.
fn check_ends(alloc: Global, text: &Indexed<'_>) -> Result<(), ExpandStop>
    ensures { Ends text.now result }
{
    match met_inside_itself(alloc, text)? {
        None => Ok(()),
        Some(name) => Err(ExpandStop::Fault(ExpandFault::Recursive(name))),
    }
}

// The builder that was told the processes of a text and then its statements.
fn told(
    alloc: Global,
    text: &Indexed<'_>,
    kinds: Vec<KindSpec>,
    list: Vec<(Text, Text)>,
) -> Result<PlanBuilder, ExpandStop>
    requires table { IsTrue (is_table kinds.items) }
    requires main { HasShortTexts text.now.main }
    requires subnets { HasShortSubnets text.now }
    ensures told { Told text.now kinds.items list.items result }
    ensures kinds { IfOk result (λ builder. builder.kinds ≡ kinds.items) }
{
    let mut builder = PlanBuilder::new(alloc, kinds);
    let Apart { plain, subnets } = subnets_apart(alloc, text, list)?;
    put_processes(plain, &mut builder)?;
    put_main(alloc, text, &mut builder)?;
    put_subnets(alloc, text, subnets, &mut builder)?;
    Ok(builder)
}

// The same as `expand`, said in one clause.
fn plan_of(alloc: Global, text: &Indexed<'_>, kinds: Vec<KindSpec>) -> Result<Plan, ExpandStop>
    requires table { IsTrue (is_table kinds.items) }
    requires valid { IsNetText text.now }
    ensures said { Gives result (λ outcome. TextComesTo kinds.items text.now outcome) }
    ensures over { IfOk result (IsOver kinds.items) }
{
    check_ends(alloc, text)?;
    let list = instances(alloc, text, kinds.as_slice())?;
    let builder = told(alloc, text, kinds, list)?;
    let plan = builder.finish()?;
    Ok(plan)
}

/// The plan of a text, or the first thing that is against it: a subnet inside itself; then what is wrong
/// with the processes that the text stands for, in their order; then with its statements, main's first
/// and then those of each subnet process; and then with the whole. The order is this project's own.
pub fn expand(alloc: Global, text: &NetText, kinds: Vec<KindSpec>) -> Result<Plan, ExpandStop>
    requires table { IsTrue (is_table kinds.items) }
    requires valid { IsNetText text.now }
    // A plan is that of the text.
    ensures plan { IfOk result (λ plan. TextComesTo kinds.items text.now (Ok plan)) }
    // Each of its processes is of a kind of the table.
    ensures over { IfOk result (IsOver kinds.items) }
    // A fault is the first of the text.
    ensures fault { IfErr result (λ stop. IfFault stop (λ fault. TextComesTo kinds.items text.now (Err fault))) }
    // What the text comes to is the answer, unless memory runs out.
    ensures exact { (outcome : Result Network ExpandFault) → TextComesTo kinds.items text.now outcome → Gives result (λ found. found ≡ outcome) }
{
    let indexed = Indexed::of(alloc, text)?;
    plan_of(alloc, &indexed, kinds)
}
