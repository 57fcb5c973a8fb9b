//! The ports of a draft, with how many elements of each have numbers.
ghost use Rattle.std.specs.Prelude.{◌≡◌, ◌≤◌, ◌^◌, length, map, Some, slice_get, ℕ};
ghost use Rattle.flow_limits.specs.declared.TheConstants.{ELEMENT_LIMIT};
ghost use Rattle.flow_net.specs.Finishes.{count_of};

use crate::draft::DraftPort;

/// The ports of a draft, with how many elements of each have numbers.
#[derive(Clone, Copy)]
pub struct Counted<'a> {
    pub ports: &'a [DraftPort],
    pub counts: &'a [u32],
    pub ghost few_ports: { length ports.now ≤ 2 ^ 21 },
    pub ghost counts_are: { counts.now ≡ map count_of ports.now },
    pub ghost few: { (g n : ℕ) → slice_get counts.now g ≡ Some n → n ≤ ELEMENT_LIMIT },
}

impl<'a> Counted<'a> {
    pub fn of(ports: &'a [DraftPort], counts: &'a [u32]) -> Counted<'a>
        requires few_ports { length ports.now ≤ 2 ^ 21 }
        requires counts { counts.now ≡ map count_of ports.now }
        requires few { (g n : ℕ) → slice_get counts.now g ≡ Some n → n ≤ ELEMENT_LIMIT }
        ensures { result.ports.now ≡ ports.now }
    {
        Counted { ports, counts }
    }
}
