//! Subnets that are met inside themselves.
ghost use Rattle.std.specs.Prelude.{◌≡◌, ◌∷◌, ◌++◌, ◌<◌, length, reverse, MatchOption, OnOk, IfOk};
ghost use Rattle.flow_flat.specs.declared.fault.ExpandFault.TheVariants.{Recursive};
ghost use Rattle.flow_flat.specs.Firsts.{AllPass, FirstFails};
ghost use Rattle.flow_flat.specs.Texts.{RecursionPasses, deep_instances};
ghost use Rattle.flow_expand.specs.Marks.{Looks};
ghost use Rattle.flow_expand.specs.Ways.{name_at};

use crate::indexed::Indexed;
use crate::named::subnet_named;
use crate::way::part_of;
use flow_items::Text;
use std::alloc::{AllocError, Global};

/// How far the walk has come with a subnet: it wasn't met, or the walk is inside it, or it is done.
#[derive(Clone, Copy, PartialEq, Eq)]
pub enum Mark {
    New,
    Open,
    Done,
}

/// A part that is walked, main or the subnet at this place, and the place of the process that comes next.
#[derive(Clone, Copy)]
pub struct Spot {
    pub subnet: Option<usize>,
    pub next: usize,
}

/// What comes next of a part.
#[derive(Clone, Copy)]
pub enum Look {
    /// No process is left.
    Ended,
    /// A process that leads back to nothing.
    Passed,
    /// A process that is a subnet which wasn't met.
    Inside(usize),
    /// A process that is a subnet around it.
    Again(usize),
}

fn seen_next(text: &Indexed<'_>, marks: &[Mark], spot: Spot) -> Look
    requires { length marks.now ≡ length text.now.subnets }
    ensures sees { Looks text.now marks.now spot result }
    ensures few { result ≡ Look.Passed → spot.next < usize.MAX }
{
    let processes = part_of(text, spot.subnet).processes.as_slice();
    if spot.next >= processes.len() {
        return Look::Ended;
    }
    let Some(subnet) = subnet_named(text, processes[spot.next].1.as_slice()) else {
        return Look::Passed;
    };
    match marks[subnet] {
        Mark::New => Look::Inside(subnet),
        Mark::Open => Look::Again(subnet),
        Mark::Done => Look::Passed,
    }
}

fn name_of(alloc: Global, text: &Indexed<'_>, subnet: usize) -> Result<Text, AllocError>
    ensures { IfOk result (λ name. name ≡ name_at text.now (Some subnet)) }
{
    match text.value().subnets.as_slice().get(subnet) {
        Some(found) => found.0.copy(alloc),
        None => Ok(Text::new(alloc)),
    }
}

/// The name of the first subnet that is met inside itself, walking from main into each subnet where it is
/// first used. Each process of a part is looked at twice at most, and the way is kept on the heap.
pub fn met_inside_itself(alloc: Global, text: &Indexed<'_>) -> Result<Option<Text>, AllocError>
    ensures { IfOk result (λ met. MatchOption met (AllPass RecursionPasses (deep_instances text.now)) (λ name. FirstFails RecursionPasses (deep_instances text.now) (Recursive name))) }
{
    let mut marks = vec![in alloc; Mark::New; text.value().subnets.len()]?;
    let mut way = Vec::new(alloc);
    way.push(Spot {
        subnet: None,
        next: 0,
    })?;
    'way: while let Some(spot) = way.pop() {
        match seen_next(text, marks.as_slice(), spot) {
            Look::Ended => {
                if let Some(subnet) = spot.subnet {
                    marks[subnet] = Mark::Done;
                }
            }
            Look::Passed => way.push(Spot {
                subnet: spot.subnet,
                next: spot.next + 1,
            })?,
            Look::Inside(subnet) => {
                marks[subnet] = Mark::Open;
                way.push(spot)?;
                way.push(Spot {
                    subnet: Some(subnet),
                    next: 0,
                })?;
            }
            Look::Again(subnet) => return Ok(Some(name_of(alloc, text, subnet)?)),
        }
    }
    Ok(None)
}
