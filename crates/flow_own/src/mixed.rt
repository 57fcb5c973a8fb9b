//! Components of networks in which some are the caller's own.

use crate::own::Own;
use crate::part::Part;
use crate::tape::Tape;
use crate::unmixed::Unmixed;
use flow_component::{Answer, Component, Shape, Stop, Wish};
use flow_packet::Hands;
use std::marker::Model;

/// The two sorts of components of such a network.
#[derive(Drop)]
pub enum Mix<K: Component, P: Part> {
    Other(K),
    Own(Own<P>),
}

/// A component of the caller's own, or another.
#[derive(Drop)]
pub struct Mixed<K: Component, P: Part> {
    mix: Mix<K, P>,
}

impl<K: Component, P: Part> Model for Mixed<K, P> {
    ghost use Rattle.flow_own.specs.Mixed.{Mixed, mixed_of};

    ghost Value = { Mixed K };

    ghost view = { λ m. mixed_of m.mix };
}

impl<K: Component, P: Part> Mixed<K, P> {
    ghost use Rattle.std.specs.Prelude.{◌≡◌, IsTrue};
    ghost use Rattle.std.specs.Option.{option_copied};
    ghost use Rattle.flow_own.specs.Mixed.{Mixed, Other, Own, mixed_of, is_other, tape_in, IsRecordedIn};

    pub fn of(mix: Mix<K, P>) -> Mixed<K, P>
        ensures { result ≡ mixed_of mix }
    {
        Mixed { mix }
    }

    pub fn mix(&self) -> &Mix<K, P>
        ensures { mixed_of result.now ≡ self.now }
    {
        &self.mix
    }

    /// It isn't the caller's own.
    pub(crate) fn is_other(&self) -> bool
        ensures { result ≡ is_other self.now }
    {
        matches!(&self.mix, Mix::Other(_))
    }

    /// The same component, for a network in which none is the caller's own.
    pub(crate) fn into_unmixed(self) -> Unmixed<K>
        requires { IsTrue (is_other self) }
        ensures { result ≡ self }
    {
        match self.mix {
            Mix::Other(component) => Unmixed::of(component),
            Mix::Own(_) => unreachable!(),
        }
    }

    /// The tape of a component of the caller's own; none of another.
    pub fn tape(&self) -> Option<&Tape>
        ensures tape { option_copied result ≡ tape_in self.now }
        ensures recorded { IsRecordedIn self.now }
    {
        match &self.mix {
            Mix::Other(_) => None,
            Mix::Own(own) => Some(own.tape()),
        }
    }
}

impl<K: Component, P: Part> Component for Mixed<K, P> {
    ghost use Rattle.flow_own.specs.Mixed.{mixed_rules, mixed_state, mixed_told};
    ghost use Rattle.flow_own.specs.MixedLaws.{mixed_lawful};

    ghost rules = { mixed_rules K.rules };

    ghost state_of = { mixed_state K.state_of };

    ghost told_end = { mixed_told K.told_end };

    ghost lawful = { mixed_lawful K.rules K.lawful };

    fn shape(&self) -> Shape {
        match &self.mix {
            Mix::Other(component) => component.shape(),
            Mix::Own(own) => own.shape(),
        }
    }

    #[inline(always)]
    fn resume(&mut self, hands: &mut Hands, answer: Answer) -> Result<Wish, Stop> {
        match &mut self.mix {
            Mix::Other(component) => return component.resume(hands, answer),
            Mix::Own(own) => return own.resume(hands, answer),
        }
    }

    fn end(&mut self) {
        match &mut self.mix {
            Mix::Other(component) => component.end(),
            Mix::Own(own) => own.end(),
        }
    }
}
