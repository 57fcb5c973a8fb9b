//! The stamps of turns that were made ahead of the clock.
ghost use Rattle.std.specs.Prelude.{◌≡◌, ◌+◌, ◌^◌, ◌≤◌, length};
ghost use Rattle.flow_machine.specs.Stamps.{restamped};

use super::Body;
use flow_component::Component;

/// Writes the numbers from the first one on over the last so many of these.
fn number_last(stamps: &mut [u32], count: usize, first: u32)
    requires few { count ≤ length stamps.old }
    requires small { first + count ≤ 2 ^ 32 }
    ensures { stamps.new ≡ restamped count first stamps.old }
{
    let kept = stamps.len() - count;
    for i in 0..count {
        stamps[kept + i] = first + i as u32;
    }
}

impl<K: Component> Body<K> {
    /// Gives its last turns, which are so many, the stamps from the first one on. A process may so make several turns with stamps that don't count, and get
    /// the right ones later, by one step of the clock. Takes no memory, and the room of its next turn stays.
    pub fn restamp(&mut self, count: u32, first: u32)
        requires few { count ≤ length self.old.stamps }
        requires small { first + count ≤ 2 ^ 32 }
        ensures { self.new ≡ record self.old { stamps = restamped count first self.old.stamps } }
    {
        number_last(&mut self.stamps, count as usize, first);
    }
}
