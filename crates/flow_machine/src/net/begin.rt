//! A network at its start.
ghost use Rattle.std.specs.Prelude.{◌≡◌, ◌<◌, ◌≤◌, length, map, IfOk, ℕ, Some, slice_get};
ghost use Rattle.flow_plan.specs.declared.plan.Connection.{Connection as NetConnection};
ghost use Rattle.flow_model.specs.Plans.{StartsWell};
ghost use Rattle.flow_machine.specs.Starts.{StartsNet, StartsBodies, StartsChannels};

use super::Net;
use crate::body::Body;
use crate::channel::Channel;
use crate::wires::{receiving, sending};
use flow_component::Component;
use flow_items::Items;
use flow_limits::{CONNECTION_LIMIT, SENDER_LIMIT};
use flow_plan::{Connection, Plan};
use std::alloc::{AllocError, Global};

/// Gives bodies up, and spends what they hold.
pub(crate) fn discard_bodies<K: Component>(bodies: Vec<Body<K>>) {
    let mut bodies = bodies;
    while let Some(body) = bodies.pop() {
        body.discard();
    }
    bodies.destroy_empty();
}

/// Gives channels up, and spends what they hold.
pub(crate) fn discard_channels(channels: Vec<Channel>) {
    let mut channels = channels;
    while let Some(channel) = channels.pop() {
        channel.discard();
    }
    channels.destroy_empty();
}

/// The connections of a plan once more.
fn copied(alloc: Global, connections: &[Connection]) -> Result<Vec<Connection>, AllocError>
    ensures { IfOk result (λ copy. copy.items ≡ connections.now) }
{
    let mut copy = Vec::with_capacity(alloc, connections.len())?;
    for connection in connections {
        let senders = Vec::from_slice(alloc, connection.senders.as_slice())?;
        copy.push(Connection {
            receiver: connection.receiver,
            input: connection.input,
            capacity: connection.capacity,
            senders: Items::of(senders),
        })?;
    }
    Ok(copy)
}

/// The connections at their start.
fn channels_of(alloc: Global, connections: &[Connection]) -> Result<Vec<Channel>, AllocError>
    requires { (c : ℕ) (x : NetConnection) → slice_get connections.now c ≡ Some x → length x.senders ≤ SENDER_LIMIT }
    ensures { IfOk result (λ channels. StartsChannels connections.now channels.items) }
{
    let mut channels = Vec::with_capacity(alloc, connections.len())?;
    for connection in connections {
        let senders = connection.senders.len() as u32;
        let Ok(channel) = Channel::new(alloc, connection.capacity, senders) else {
            discard_channels(channels);
            return Err(AllocError);
        };
        if let Err(refused) = channels.push(channel) {
            refused.value.discard();
            discard_channels(channels);
            return Err(AllocError);
        }
    }
    Ok(channels)
}

/// The processes at their start, each with its component.
fn bodies_of<K: Component>(
    alloc: Global,
    plan: &Plan,
    components: Vec<K>,
) -> Result<Vec<Body<K>>, AllocError>
    requires well { StartsWell K.rules plan.now (map K.state_of components.items) }
    requires few { length plan.now.connections ≤ CONNECTION_LIMIT }
    ensures { IfOk result (λ bodies. StartsBodies plan.now (map K.state_of components.items) bodies.items) }
{
    let receiving = receiving(alloc, plan)?;
    let sending = sending(alloc, plan)?;
    let mut components = components;
    let mut bodies = Vec::with_capacity(alloc, plan.processes().len())?;
    for process in 0..plan.processes().len() as u32 {
        let component = components.remove(0);
        let inputs = receiving[process as usize].as_slice();
        let outputs = sending[process as usize].as_slice();
        let Ok(body) = Body::begin(alloc, plan, process, inputs, outputs, component) else {
            discard_bodies(bodies);
            return Err(AllocError);
        };
        if let Err(refused) = bodies.push(body) {
            refused.value.discard();
            discard_bodies(bodies);
            return Err(AllocError);
        }
    }
    Ok(bodies)
}

impl<K: Component> Net<K> {
    /// A network of a plan with these components, one for each process. All processes are idle and set, nothing was made or put, each connection has
    /// the places of its capacity, and the net has a copy of the plan's connections.
    pub fn start(alloc: Global, plan: &Plan, components: Vec<K>) -> Result<Net<K>, AllocError>
        requires well { StartsWell K.rules plan.now (map K.state_of components.items) }
        requires few { length plan.now.connections ≤ CONNECTION_LIMIT }
        ensures { IfOk result (λ net. StartsNet plan.now (map K.state_of components.items) net) }
    {
        let connections = copied(alloc, plan.connections())?;
        let channels = channels_of(alloc, plan.connections())?;
        match bodies_of(alloc, plan, components) {
            Ok(bodies) => Ok(Net {
                connections,
                bodies,
                channels,
            }),
            Err(stop) => {
                discard_channels(channels);
                Err(stop)
            }
        }
    }
}
