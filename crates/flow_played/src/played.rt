//! Components of networks in which those of the caller's own are players.

use crate::no_part::NoPart;
use flow_component::{Answer, Component, Shape, Stop, Wish};
use flow_items::Items;
use flow_own::{Mix, Own, Tape};
use flow_packet::Hands;
use std::marker::Model;

/// The player of a tape, or a component that isn't the caller's own.
#[derive(Drop)]
pub struct Played<K: Component> {
    mix: Mix<K, NoPart>,
}

impl<K: Component> Model for Played<K> {
    ghost use Rattle.flow_own.specs.Mixed.{Mixed, mixed_of};
    ghost use Rattle.flow_played.specs.Rules.{IsPlayed};

    ghost Value = { Mixed K };

    ghost view = { λ p. mixed_of p.mix };

    ghost invariant = { λ p. IsPlayed (mixed_of p.mix) };
}

impl<K: Component> Played<K> {
    ghost use Rattle.std.specs.Prelude.{◌≡◌};
    ghost use Rattle.std.specs.Option.{option_copied};
    ghost use Rattle.flow_own.specs.Mixed.{Other};
    ghost use Rattle.flow_played.specs.Rules.{playing, other_of};

    /// A component that isn't the caller's own.
    pub fn other(component: K) -> Played<K>
        ensures { result ≡ Other component }
    {
        Played {
            mix: Mix::Other(component),
        }
    }

    /// The player of a tape, before its first entry.
    pub fn player(tape: Tape, shape: Shape, used: Items<u32>) -> Played<K>
        ensures { result ≡ playing tape shape used }
    {
        Played {
            mix: Mix::Own(Own::player(tape, shape, used)),
        }
    }

    /// The component, where it isn't the caller's own.
    pub fn component(&self) -> Option<&K>
        ensures { option_copied result ≡ other_of self.now }
    {
        match &self.mix {
            Mix::Other(component) => Some(component),
            Mix::Own(_) => None,
        }
    }
}

impl<K: Component> Component for Played<K> {
    ghost use Rattle.flow_own.specs.Mixed.{mixed_state, mixed_told};
    ghost use Rattle.flow_played.specs.Rules.{played_rules};
    ghost use Rattle.flow_played.specs.RulesLaws.{played_lawful};

    ghost rules = { played_rules K.rules };

    ghost state_of = { mixed_state K.state_of };

    ghost told_end = { mixed_told K.told_end };

    ghost lawful = { played_lawful K.rules K.lawful };

    fn shape(&self) -> Shape {
        match &self.mix {
            Mix::Other(component) => component.shape(),
            Mix::Own(own) => own.shape(),
        }
    }

    fn resume(&mut self, hands: &mut Hands, answer: Answer) -> Result<Wish, Stop> {
        match &mut self.mix {
            Mix::Other(component) => return component.resume(hands, answer),
            Mix::Own(own) => return own.resume(hands, answer),
        }
    }

    fn end(&mut self) {
        match &mut self.mix {
            Mix::Other(component) => component.end(),
            Mix::Own(own) => own.end(),
        }
    }
}
