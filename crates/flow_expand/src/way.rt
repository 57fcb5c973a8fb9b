//! A way into the parts of a text.
ghost use Rattle.std.specs.Prelude.{◌≡◌};
ghost use Rattle.flow_expand.specs.Ways.{part_at};

use crate::indexed::Indexed;
use flow_items::Text;
use flow_parse::NetPart;

/// A part whose processes are written out: main, or the subnet at this place; what the names of its
/// processes begin with; and the place of the process that comes next.
#[derive(Drop)]
pub struct Frame {
    pub subnet: Option<usize>,
    pub prefix: Text,
    pub next: usize,
}

/// The part at a place: main where there is none.
pub fn part_of<'a>(text: &Indexed<'a>, subnet: Option<usize>) -> &'a NetPart
    ensures { result.now ≡ part_at text.now subnet }
{
    let Some(subnet) = subnet else {
        return &text.value().main;
    };
    match text.value().subnets.as_slice().get(subnet) {
        Some(found) => &found.1,
        None => &text.value().main,
    }
}
