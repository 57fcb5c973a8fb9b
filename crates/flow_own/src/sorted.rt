//! Components of a network, by whether some of them are the caller's own.

ghost use Rattle.std.specs.Prelude.{◌≡◌, All, IfOk, IsTrue};
ghost use Rattle.flow_own.specs.Mixed.{is_other, of_either};

use crate::mixed::Mixed;
use crate::part::Part;
use crate::unmixed::Unmixed;
use flow_component::Component;
use std::alloc::{AllocError, Global};

/// Of a network in which no component is the caller's own, or of one in which some may be.
pub enum Sorted<U, M> {
    Unmixed(U),
    Mixed(M),
}

// None of them is the caller's own.
fn are_others<K: Component, P: Part>(components: &[Mixed<K, P>]) -> bool
    ensures { IsTrue result → All (λ component. IsTrue (is_other component)) components.now }
{
    components.iter().all(|component| component.is_other())
}

// The same components, for a network in which none is the caller's own.
fn unmixed<K: Component, P: Part>(
    alloc: Global,
    components: Vec<Mixed<K, P>>,
) -> Result<Vec<Unmixed<K>>, AllocError>
    requires { All (λ component. IsTrue (is_other component)) components.items }
    ensures { IfOk result (λ unmixed. unmixed.items ≡ components.items) }
{
    let mut unmixed = Vec::with_capacity(alloc, components.len())?;
    for component in components {
        unmixed.push(component.into_unmixed())?;
    }
    Ok(unmixed)
}

/// The components of a network: where none is the caller's own, those of a network in which none is.
pub fn sorted_out<K: Component, P: Part>(
    alloc: Global,
    components: Vec<Mixed<K, P>>,
) -> Result<Sorted<Vec<Unmixed<K>>, Vec<Mixed<K, P>>>, AllocError>
    ensures { IfOk result (λ sorted. (of_either sorted).items ≡ components.items) }
{
    if are_others(&components) {
        Ok(Sorted::Unmixed(unmixed(alloc, components)?))
    } else {
        Ok(Sorted::Mixed(components))
    }
}
