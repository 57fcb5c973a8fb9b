//! What a maker is told of the process for which it makes a part.
ghost use Rattle.std.specs.Prelude.{◌≡◌, ◌≤◌, ◌<◌, ◌^◌, ℕ, option_copied};
ghost use Rattle.flow_plan.specs.declared.kind.PortSpec.{PortSpec};
ghost use Rattle.flow_plan.specs.declared.kind.PortClass.TheVariants.{Number};
ghost use Rattle.flow_catalogue.specs.Rows.{HasOptions, IsGiven, option_at};
ghost use Rattle.flow_supply.specs.Options.{IsNumberGiven, IsNumberOf, IsOptionNamed, option_named, port_place};

use flow_items::Text;
use flow_plan::{KindSpec, PortSpec};
use flow_text::decimal;
use std::marker::Model;

/// The process for which a part is wanted: its kind, and the texts that its options have in the network file. They were
/// checked with the plan: each is of its port's class, and none is wanting that the kind needs.
#[derive(Drop)]
pub struct Asked<'a> {
    kind: &'a KindSpec,
    options: &'a [(u32, Text)],
}

impl<'a> Model for Asked<'a> {
    ghost use Rattle.flow_catalogue.specs.Rows.{HasOptions};
    ghost use Rattle.flow_supply.specs.Options.{Wanted};

    ghost Value = { Wanted };

    ghost view = { λ asked. record { kind = asked.kind.now; options = asked.options.now } };

    ghost invariant = { λ asked. HasOptions asked.kind.now.inputs asked.options.now };
}

impl<'a> Asked<'a> {
    pub(crate) fn new(kind: &'a KindSpec, options: &'a [(u32, Text)]) -> Self
        requires { HasOptions kind.now.inputs options.now }
        ensures { result ≡ record { kind = kind.now; options = options.now } }
    {
        Asked { kind, options }
    }

    /// The name of the kind.
    pub fn kind(&self) -> &[u8]
        ensures { result.now ≡ self.now.kind.name }
    {
        self.kind.name.as_slice()
    }

    /// The text of the option of this name. There is none where the network file gives none, or the kind has no option of
    /// the name.
    pub fn text(&self, name: &[u8]) -> Option<&[u8]>
        ensures text { option_copied result ≡ option_named self.now name.now }
        ensures given { (port : PortSpec) → IsOptionNamed self.now.kind.inputs name.now port → IsGiven port (option_copied result) }
    {
        match place_of(self.kind.inputs.as_slice(), name) {
            Some(place) => option_at(self.options, place),
            None => None,
        }
    }

    /// The number that the text of the option of this name spells in decimal digits, if it spells one: an option of the
    /// class Number always does.
    pub fn number(&self, name: &[u8]) -> Option<u64>
        ensures number { IsNumberOf (option_named self.now name.now) result }
        ensures given { (port : PortSpec) (least most : ℕ) → IsOptionNamed self.now.kind.inputs name.now port → port.class ≡ Number least most → most < 2 ^ 64 → IsNumberGiven port least most result }
    {
        match self.text(name) {
            Some(text) => decimal(text, 0, u64::MAX),
            None => None,
        }
    }
}

// The place of the port of this name.
fn place_of(ports: &[PortSpec], name: &[u8]) -> Option<usize>
    ensures { result ≡ port_place ports.now name.now }
{
    ports.iter().position(|port| port.name.as_slice() == name)
}

// The text of the option at this place.
fn option_at(options: &[(u32, Text)], place: usize) -> Option<&[u8]>
    ensures { option_copied result ≡ option_at place options.now }
{
    let given = options.iter().find(|option| option.0 as usize == place);
    match given {
        Some(option) => Some(option.1.as_slice()),
        None => None,
    }
}
