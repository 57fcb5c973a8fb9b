//! Telling a builder the statements of a text as they are meant.
ghost use Rattle.std.specs.Prelude.{◌≡◌, List, []};
ghost use Rattle.std.specs.List.{filter_map, cons_option, flat_map};
ghost use Rattle.flow_flat.specs.Subnets.{statement_meant};
ghost use Rattle.flow_flat.specs.Told.{IsShort, HasShortTexts, AfterMeant};
ghost use Rattle.flow_expand.specs.Outcomes.{Leaves};
ghost use Rattle.flow_expand.specs.Tells.{own_meant, HasShortSubnets};

use crate::indexed::Indexed;
use crate::meaning::meant;
use crate::named::subnet_called;
use crate::stop::ExpandStop;
use flow_items::Text;
use flow_limits::SUBNET_DEPTH;
use flow_net::PlanBuilder;
use flow_parse::{NetPart, Statement};
use flow_plan::PortRef;
use std::alloc::Global;

// How many levels of a text are looked at: main, its subnets, and one level more, whose processes are refused.
const LEVELS: u32 = SUBNET_DEPTH as u32 + 2;

fn put_connect<'a>(
    alloc: Global,
    text: &Indexed<'a>,
    prefix: &[u8],
    part: &'a NetPart,
    builder: &mut PlanBuilder,
    from: &Text,
    out: &'a PortRef,
    capacity: Option<u32>,
    to: &Text,
    into: &'a PortRef,
) -> Result<(), ExpandStop>
    ensures { Leaves result builder.new (λ outcome. AfterMeant builder.old (cons_option (statement_meant text.now prefix.now part.now (Statement.Connect from.now out.now capacity to.now into.now)) []) outcome) }
{
    let (sender, output) = meant(alloc, text, LEVELS, prefix, part, false, from, out)?;
    let (receiver, input) = meant(alloc, text, LEVELS, prefix, part, true, to, into)?;
    builder.connect(
        sender.as_slice(),
        output,
        capacity,
        receiver.as_slice(),
        input,
    )?;
    Ok(())
}

fn put_initial<'a>(
    alloc: Global,
    text: &Indexed<'a>,
    prefix: &[u8],
    part: &'a NetPart,
    builder: &mut PlanBuilder,
    bytes: &Text,
    to: &Text,
    into: &'a PortRef,
) -> Result<(), ExpandStop>
    requires { IsShort (Statement.Initial bytes.now to.now into.now) }
    ensures { Leaves result builder.new (λ outcome. AfterMeant builder.old (cons_option (statement_meant text.now prefix.now part.now (Statement.Initial bytes.now to.now into.now)) []) outcome) }
{
    let (receiver, input) = meant(alloc, text, LEVELS, prefix, part, true, to, into)?;
    builder.initial(bytes.as_slice(), receiver.as_slice(), input)?;
    Ok(())
}

fn put_statement<'a>(
    alloc: Global,
    text: &Indexed<'a>,
    prefix: &[u8],
    part: &'a NetPart,
    builder: &mut PlanBuilder,
    statement: &'a Statement,
) -> Result<(), ExpandStop>
    requires { IsShort statement.now }
    ensures { Leaves result builder.new (λ outcome. AfterMeant builder.old (cons_option (statement_meant text.now prefix.now part.now statement.now) []) outcome) }
{
    match statement {
        Statement::Connect {
            from,
            out,
            capacity,
            to,
            into,
        } => put_connect(
            alloc, text, prefix, part, builder, from, out, *capacity, to, into,
        ),
        Statement::Initial {
            text: bytes,
            to,
            into,
        } => put_initial(alloc, text, prefix, part, builder, bytes, to, into),
        Statement::InPort {
            outer: _,
            to: _,
            into: _,
        } => Ok(()),
        Statement::OutPort {
            from: _,
            out: _,
            outer: _,
        } => Ok(()),
    }
}

/// Tells a builder the statements of a part whose processes' names begin with this.
pub fn put_statements<'a>(
    alloc: Global,
    text: &Indexed<'a>,
    prefix: &[u8],
    part: &'a NetPart,
    builder: &mut PlanBuilder,
) -> Result<(), ExpandStop>
    requires { HasShortTexts part.now }
    ensures { Leaves result builder.new (λ outcome. AfterMeant builder.old (filter_map (statement_meant text.now prefix.now part.now) part.now.statements) outcome) }
{
    let statements = part.statements.as_slice();
    'statements: for statement in statements {
        put_statement(alloc, text, prefix, part, builder, statement)?;
    }
    Ok(())
}
