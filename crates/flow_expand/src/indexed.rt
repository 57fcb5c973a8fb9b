//! A text with the places of its subnets.
ghost use Rattle.std.specs.Prelude.{◌≡◌, ℕ, List, IfOk};
ghost use Rattle.flow_parse.specs.Places.{place_in};
ghost use Rattle.flow_expand.specs.Places.{subnet_place};

use flow_parse::{Names, NetText};
use std::alloc::{AllocError, Global};
use std::marker::Model;

/// The text of a network with the place of each subnet under its name, so that a process finds its subnet
/// without going over all of them.
#[derive(Drop)]
pub struct Indexed<'a> {
    value: &'a NetText,
    subnets: Names,
}

impl<'a> Model for Indexed<'a> {
    ghost use Rattle.std.specs.Prelude.{◌≡◌, ℕ, List};
    ghost use Rattle.flow_parse.specs.declared.value.NetText.{NetText};
    ghost use Rattle.flow_parse.specs.Places.{place_in};
    ghost use Rattle.flow_expand.specs.Places.{subnet_place};

    ghost Value = { NetText };

    ghost view = { λ i. i.value.now };

    // The place of a name is the one that going over the subnets gives.
    ghost invariant = { λ i. (name : List ℕ) → place_in i.subnets.places name ≡ subnet_place i.value.now name };
}

// The first place of each subnet's name.
fn subnet_names(alloc: Global, text: &NetText) -> Result<Names, AllocError>
    ensures { IfOk result (λ names. (name : List ℕ) → place_in names.places name ≡ subnet_place text.now name) }
{
    let mut names = Names::new(alloc);
    let subnets = text.subnets.as_slice();
    'subnets: for (place, subnet) in subnets.iter().enumerate() {
        let name = subnet.0.as_slice();
        if names.place(name).is_none() {
            names.put(alloc, name, place)?;
        }
    }
    Ok(names)
}

impl<'a> Indexed<'a> {
    pub fn of(alloc: Global, value: &'a NetText) -> Result<Self, AllocError>
        ensures { IfOk result (λ indexed. indexed ≡ value.now) }
    {
        let subnets = subnet_names(alloc, value)?;
        Ok(Indexed { value, subnets })
    }

    /// The text.
    pub fn value(&self) -> &'a NetText
        ensures { result.now ≡ self.now }
    {
        self.value
    }

    /// The place of the subnet of a name.
    pub fn place(&self, name: &[u8]) -> Option<usize>
        ensures { result ≡ subnet_place self.now name.now }
    {
        self.subnets.place(name)
    }
}
