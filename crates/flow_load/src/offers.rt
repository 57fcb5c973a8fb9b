//! What a caller hands in of its own: kinds of components, with the parts that their processes take.
ghost use Rattle.std.specs.Prelude.{◌≡◌, IfOk};
ghost use Rattle.flow_load.specs.Offers.{AreOffered, handed_in, offers_of, parts_in};

use flow_own::Part;
use flow_plan::KindSpec;
use std::alloc::{AllocError, Global};

/// A kind of the caller's own: its name and its ports as a network file has them, and the parts of it. In a run each process of the kind takes the
/// next part, in the order of the processes; those that none takes are dropped. A check and a replay take none.
#[derive(Drop)]
pub struct OwnKind<P: Part> {
    pub spec: KindSpec,
    pub parts: Vec<P>,
}

/// The kinds of these, and the parts of each, by the place of the kind.
pub fn kinds_and_parts<P: Part>(
    alloc: Global,
    own: Vec<OwnKind<P>>,
) -> Result<(Vec<KindSpec>, Vec<Vec<P>>), AllocError>
    ensures offered { IfOk result (λ both. AreOffered (offers_of own.items) both.0.items both.1.items) }
    ensures parts { IfOk result (λ both. parts_in both.1.items ≡ handed_in own.items) }
{
    let mut kinds = Vec::new(alloc);
    let mut parts = Vec::new(alloc);
    for kind in own {
        kinds.push(kind.spec)?;
        parts.push(kind.parts)?;
    }
    Ok((kinds, parts))
}
