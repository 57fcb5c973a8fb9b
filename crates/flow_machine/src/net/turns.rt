//! A turn of a network, over its bodies and channels.
ghost use Rattle.std.specs.Prelude.{◌<◌, length};
ghost use Rattle.flow_machine.specs.Values.{net_of};
ghost use Rattle.flow_machine.specs.Nets.{level_of, TurnsNet};
ghost use Rattle.flow_machine.specs.NetSteps.{IsSetIn};
ghost use Rattle.flow_machine.specs.FitNets.{FitNet};

use super::pair;
use crate::answers::{Case, Turn};
use crate::body::Body;
use crate::channel::Channel;
use flow_component::Component;

/// A turn of a process, if it has one, where a level turn sees the exact length.
#[inline(always)]
pub(crate) fn turn_of<K: Component>(
    bodies: &mut [Body<K>],
    channels: &mut [Channel],
    process: u32,
    stamp: u32,
) -> Turn
    requires in_range { process < length bodies.old }
    requires set { IsSetIn (net_of bodies.old channels.old) process }
    requires fit { FitNet K.rules (net_of bodies.old channels.old) }
    ensures { TurnsNet (net_of bodies.old channels.old) process (level_of (net_of bodies.old channels.old) process) stamp result (net_of bodies.new channels.new) }
{
    let body = &mut bodies[process as usize];
    match body.case() {
        Case::Idle => return pair::wake(body, channels, stamp),
        Case::Receive { connection, port } => {
            let channel = &mut channels[connection as usize];
            return pair::receive(body, channel, connection, port, stamp);
        }
        Case::Initial(_) => {
            body.receive_text(stamp);
            return Turn::Made(stamp);
        }
        Case::Send { connection, port } => {
            let channel = &mut channels[connection as usize];
            return pair::send(body, channel, connection, port, stamp);
        }
        Case::Level {
            connection,
            port: _,
        } => {
            let level = channels[connection as usize].level() as u32;
            body.learn(level, stamp);
            return Turn::Made(stamp);
        }
        Case::Deactivate => {
            body.deactivate(stamp);
            return Turn::Made(stamp);
        }
        Case::Close { connection } => {
            channels[connection as usize].close_one();
            body.close(stamp);
            return Turn::Made(stamp);
        }
        Case::Over(over) => return Turn::Over(over),
    }
}
