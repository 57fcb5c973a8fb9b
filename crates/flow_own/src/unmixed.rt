//! Components of networks in which none is the caller's own.

use flow_component::{Answer, Component, Shape, Stop, Wish};
use flow_packet::Hands;
use std::marker::Model;

/// A component of a network in which none is the caller's own. Contracts see it as that component in a network in which some are (`Mixed`), so that the rules and
/// the laws of these hold here too, and the code has no choice to make at each answer.
#[derive(Drop)]
pub struct Unmixed<K: Component> {
    component: K,
}

impl<K: Component> Model for Unmixed<K> {
    ghost use Rattle.flow_own.specs.Mixed.{Mixed, Other};

    ghost Value = { Mixed K };

    ghost view = { λ u. Other u.component };
}

impl<K: Component> Unmixed<K> {
    ghost use Rattle.std.specs.Prelude.{◌≡◌};
    ghost use Rattle.flow_own.specs.Mixed.{Other};

    pub fn of(component: K) -> Unmixed<K>
        ensures { result ≡ Other component }
    {
        Unmixed { component }
    }

    pub fn component(&self) -> &K
        ensures { Other result.now ≡ self.now }
    {
        &self.component
    }
}

impl<K: Component> Component for Unmixed<K> {
    ghost use Rattle.flow_own.specs.Mixed.{mixed_rules, mixed_state, mixed_told};
    ghost use Rattle.flow_own.specs.MixedLaws.{mixed_lawful};

    ghost rules = { mixed_rules K.rules };

    ghost state_of = { mixed_state K.state_of };

    ghost told_end = { mixed_told K.told_end };

    ghost lawful = { mixed_lawful K.rules K.lawful };

    fn shape(&self) -> Shape {
        self.component.shape()
    }

    #[inline(always)]
    fn resume(&mut self, hands: &mut Hands, answer: Answer) -> Result<Wish, Stop> {
        self.component.resume(hands, answer)
    }

    fn end(&mut self) {
        self.component.end();
    }
}
