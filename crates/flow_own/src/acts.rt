//! The acts of a resume, done with the hands.

ghost use Rattle.std.specs.Prelude.{◌≡◌, ◌+◌, ◌<◌};
ghost use Rattle.std.specs.Bool.{OnTrue, OnFalse};
ghost use Rattle.flow_packet.specs.Held.{held_of};
ghost use Rattle.flow_component.specs.Resumes.{drops_between, dropped_count};
ghost use Rattle.flow_own.specs.Acts.{CanDrop, CanAct, after_drops};
ghost use Rattle.flow_own.specs.Tapes.{after_entry};

use crate::tape::Entry;
use flow_packet::{Hands, PacketId};

// Drops these packets, one after another. Takes no memory.
fn drop_all(hands: &mut Hands, dropped: &[PacketId])
    requires { CanDrop (held_of hands.old) dropped.now }
    ensures held { held_of hands.new ≡ after_drops (held_of hands.old) dropped.now }
    ensures count { hands.new.dropped ≡ dropped_count hands.old.dropped (drops_between (held_of hands.old) (held_of hands.new)) }
    ensures made { hands.new.made ≡ hands.old.made }
{
    for id in dropped {
        hands.drop_packet(*id);
    }
}

/// Does the acts of an entry: it makes the packet, if there is one, and then drops the others. False: there was no memory, and nothing
/// has changed.
pub(crate) fn act(hands: &mut Hands, entry: &Entry) -> bool
    requires can { CanAct (held_of hands.old) entry.now.made entry.now.dropped }
    requires room { hands.old.made < 4294967295 }
    ensures done { OnTrue result (held_of hands.new ≡ after_entry (held_of hands.old) entry.now) }
    ensures count { OnTrue result (hands.new.dropped ≡ dropped_count hands.old.dropped (drops_between (held_of hands.old) (held_of hands.new))) }
    ensures unchanged { OnFalse result ((held_of hands.new ≡ held_of hands.old) × (hands.new.dropped ≡ hands.old.dropped)) }
{
    if let Some((kind, text)) = &entry.made {
        if hands.make(*kind, text.as_slice()).is_err() {
            return false;
        }
        drop_all(hands, entry.dropped.as_slice());
        return true;
    }
    drop_all(hands, entry.dropped.as_slice());
    true
}
