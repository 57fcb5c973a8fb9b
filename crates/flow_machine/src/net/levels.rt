//! Turns that are told a given level number.
ghost use Rattle.std.specs.Prelude.{◌≡◌, ◌<◌, ◌&&◌, nat_le, length};
ghost use Rattle.flow_machine.specs.FitNets.{FitNet};
ghost use Rattle.flow_machine.specs.NetSteps.{IsSetIn};
ghost use Rattle.flow_machine.specs.Nets.{SeesNet, IsAt, asks_level};
ghost use Rattle.flow_machine.specs.Values.{net_of};

use crate::answers::{Case, Turn};
use crate::body::Body;
use crate::channel::Channel;
use flow_component::Component;

/// The number lies from the packets that there are to the capacity.
fn allows(channel: &Channel, level: u32) -> bool
    ensures { result ≡ (nat_le (length channel.now.packets) level && nat_le level channel.now.capacity) }
{
    channel.level() <= level as usize && level <= channel.capacity()
}

/// A turn of a process that asks for a level, which is told this number.
pub(crate) fn seen_of<K: Component>(
    bodies: &mut [Body<K>],
    channels: &[Channel],
    process: u32,
    stamp: u32,
    level: u32,
) -> Option<Turn>
    requires in_range { process < length bodies.old }
    requires set { IsSetIn (net_of bodies.old channels.now) process }
    requires fit { FitNet K.rules (net_of bodies.old channels.now) }
    requires asks { IsAt (net_of bodies.old channels.now) process asks_level }
    ensures { SeesNet (net_of bodies.old channels.now) process level stamp result (net_of bodies.new channels.now) }
{
    let body = &mut bodies[process as usize];
    let Case::Level {
        connection,
        port: _,
    } = body.case()
    else {
        unreachable!()
    };
    if !allows(&channels[connection as usize], level) {
        return None;
    }
    body.learn(level, stamp);
    Some(Turn::Made(stamp))
}
