//! Naming the processes of a text to a builder.
ghost use Rattle.std.specs.Prelude.{◌≡◌, Ok, Err, IfOk, Result};
ghost use Rattle.std.specs.List.{filter_map, flat_map};
ghost use Rattle.flow_flat.specs.Told.{after_processes};
ghost use Rattle.flow_expand.specs.Tells.{own_meant, own_process, Names};

use crate::indexed::Indexed;
use crate::named::subnet_named;
use crate::stop::ExpandStop;
use flow_items::Text;
use flow_net::PlanBuilder;
use std::alloc::{AllocError, Global};

/// The processes of a text, those that are subnets apart.
#[derive(Drop)]
pub struct Apart {
    pub plain: Vec<(Text, Text)>,
    pub subnets: Vec<(Text, Text)>,
}

/// Takes the processes that are subnets from among the others, each list in its order. Names stay where
/// they are.
pub fn subnets_apart(
    alloc: Global,
    text: &Indexed<'_>,
    list: Vec<(Text, Text)>,
) -> Result<Apart, AllocError>
    ensures plain { IfOk result (λ apart. apart.plain.items ≡ filter_map (own_process text.now) list.items) }
    ensures meant { IfOk result (λ apart. flat_map (own_meant text.now) apart.subnets.items ≡ flat_map (own_meant text.now) list.items) }
{
    let mut plain = Vec::new(alloc);
    let mut subnets = Vec::new(alloc);
    'list: for process in list {
        if subnet_named(text, process.1.as_slice()).is_some() {
            subnets.push(process)?;
        } else {
            plain.push(process)?;
        }
    }
    Ok(Apart { plain, subnets })
}

/// Names processes to a builder, each with its kind. The builder takes their names over.
pub fn put_processes(list: Vec<(Text, Text)>, builder: &mut PlanBuilder) -> Result<(), ExpandStop>
    ensures { Names (after_processes builder.old list.items) result builder.new }
{
    'list: for (name, kind) in list {
        builder.process_of(name, kind.as_slice())?;
    }
    Ok(())
}
