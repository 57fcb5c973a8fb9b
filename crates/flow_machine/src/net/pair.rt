//! Turns of a body at one connection.
ghost use Rattle.std.specs.Prelude.{◌≡◌, ◌<◌, ◌^◌, ◌-◌, map, Some, None};
ghost use Rattle.flow_component.specs.declared.Wish.TheVariants.{Receive};
ghost use Rattle.flow_model.specs.Events.{received, sent, idle_event};
ghost use Rattle.flow_model.specs.Stands.{look_shown};
ghost use Rattle.flow_model.specs.declared.Stage.TheVariants.{Wishing, Idle};
ghost use Rattle.flow_model.specs.declared.Block.{Block};
ghost use Rattle.flow_model.specs.declared.Block.TheVariants.{Empty, Full, Dormant};
ghost use Rattle.flow_machine.specs.Thoughts.{HasRoom};
ghost use Rattle.flow_machine.specs.Nets.{PairTurns, WakeTurns, GetsSound, SendsAt, packet_wished};

use crate::answers::Turn;
use crate::body::Body;
use crate::channel::Channel;
use flow_component::{Component, Port};
use flow_model::Block;

/// A receive takes the oldest packet; where there is none and no sender is open, it hears the end.
#[inline(always)]
pub(crate) fn receive<K: Component>(
    body: &mut Body<K>,
    channel: &mut Channel,
    connection: u32,
    port: Port,
    stamp: u32,
) -> Turn
    requires whole { body.old.leaving ≡ None }
    requires stage { body.old.process.stage ≡ Wishing (Receive port) }
    requires room { HasRoom body.old }
    requires sound { GetsSound body.old.process channel.old.packets }
    ensures { PairTurns (received port.0 connection channel.old.packets channel.old.open_senders) (Empty connection port) stamp body.old channel.old result body.new channel.new }
{
    if channel.holds_packet() {
        let packet = channel.take();
        body.get(packet, stamp);
        return Turn::Made(stamp);
    }
    if channel.open_senders() == 0 {
        body.hear_end(stamp);
        return Turn::Made(stamp);
    }
    Turn::Blocked(Block::Empty { connection, port })
}

/// A send puts the packet of the wish where the connection has fewer packets than it takes.
#[inline(always)]
pub(crate) fn send<K: Component>(
    body: &mut Body<K>,
    channel: &mut Channel,
    connection: u32,
    port: Port,
    stamp: u32,
) -> Turn
    requires whole { body.old.leaving ≡ None }
    requires stage { SendsAt body.old.process.stage port }
    requires room { HasRoom body.old }
    requires counted { channel.old.puts < 2 ^ 64 - 1 }
    ensures { PairTurns (sent port.0 connection (packet_wished body.old.process) (Some (look_shown channel.old))) (Full connection port) stamp body.old channel.old result body.new channel.new }
{
    if channel.has_room() {
        let packet = body.send(stamp);
        channel.put(packet);
        return Turn::Made(stamp);
    }
    Turn::Blocked(Block::Full { connection, port })
}

/// An idle process starts, or goes to its end, or takes a packet from its automatic input, or is dormant.
#[cold]
#[inline(never)]
pub(crate) fn wake<K: Component>(body: &mut Body<K>, channels: &mut [Channel], stamp: u32) -> Turn
    requires whole { body.old.leaving ≡ None }
    requires stage { body.old.process.stage ≡ Idle }
    requires room { HasRoom body.old }
    ensures { WakeTurns (idle_event (map look_shown channels.old) body.old.process) Dormant stamp body.old channels.old result body.new channels.new }
{
    if body.can_start(channels) {
        body.start(stamp);
        return Turn::Made(stamp);
    }
    if body.can_finish(channels) {
        body.begin_closing(stamp);
        return Turn::Made(stamp);
    }
    if !body.takes_signal(channels) {
        return Turn::Blocked(Block::Dormant);
    }
    let Some(connection) = body.signal_source(channels) else {
        return Turn::Blocked(Block::Dormant);
    };
    let packet = channels[connection as usize].take();
    body.take_signal(packet, stamp);
    Turn::Made(stamp)
}
