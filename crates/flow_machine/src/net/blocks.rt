//! What a process waits for, while it has no turn.
ghost use Rattle.std.specs.Prelude.{◌≡◌, ◌<◌, if◌then◌else◌, length, map, is_some, None, Some};
ghost use Rattle.flow_model.specs.declared.Block.TheVariants.{Empty, Full, Dormant};
ghost use Rattle.flow_model.specs.Events.{received, idle_event};
ghost use Rattle.flow_model.specs.Stages.{IsThoughtStage};
ghost use Rattle.flow_model.specs.Stands.{look_shown};
ghost use Rattle.flow_machine.specs.Values.{net_of};
ghost use Rattle.flow_machine.specs.FitNets.{FitNet};
ghost use Rattle.flow_machine.specs.Nets.{block_at, IsAt, is_full};

use crate::answers::Case;
use crate::body::Body;
use crate::channel::Channel;
use flow_component::{Component, Port};
use flow_model::Block;

/// A receive waits while the connection is empty and a sender is open.
fn empty(channel: &Channel, connection: u32, port: Port) -> Option<Block>
    ensures { result ≡ if is_some (received port.0 connection channel.now.packets channel.now.open_senders) then None else Some (Empty connection port) }
{
    if channel.holds_packet() {
        return None;
    }
    if channel.open_senders() == 0 {
        return None;
    }
    Some(Block::Empty { connection, port })
}

/// A send waits while the connection is full.
fn full(channel: &Channel, connection: u32, port: Port) -> Option<Block>
    ensures { result ≡ if is_full channel.now then Some (Full connection port) else None }
{
    if channel.has_room() {
        None
    } else {
        Some(Block::Full { connection, port })
    }
}

/// An idle process waits while it can neither start nor go to its end nor take a packet from its automatic input.
fn dormant<K: Component>(body: &Body<K>, channels: &[Channel]) -> Option<Block>
    ensures { result ≡ if is_some (idle_event (map look_shown channels.now) body.now.process) then None else Some Dormant }
{
    if body.can_start(channels) {
        return None;
    }
    if body.can_finish(channels) {
        return None;
    }
    if !body.takes_signal(channels) {
        return Some(Block::Dormant);
    }
    match body.signal_source(channels) {
        Some(_) => None,
        None => Some(Block::Dormant),
    }
}

/// The block of a process.
pub(crate) fn block_of<K: Component>(
    bodies: &[Body<K>],
    channels: &[Channel],
    process: u32,
) -> Option<Block>
    requires in_range { process < length bodies.now }
    requires thought { IsAt (net_of bodies.now channels.now) process IsThoughtStage }
    requires fit { FitNet K.rules (net_of bodies.now channels.now) }
    ensures { result ≡ block_at (net_of bodies.now channels.now) process }
{
    let body = &bodies[process as usize];
    match body.case() {
        Case::Idle => dormant(body, channels),
        Case::Receive { connection, port } => {
            empty(&channels[connection as usize], connection, port)
        }
        Case::Send { connection, port } => full(&channels[connection as usize], connection, port),
        Case::Initial(_) => None,
        Case::Level {
            connection: _,
            port: _,
        } => None,
        Case::Deactivate => None,
        Case::Close { connection: _ } => None,
        Case::Over(_) => None,
    }
}
