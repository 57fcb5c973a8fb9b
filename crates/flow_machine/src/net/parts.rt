//! Networks in pieces.
ghost use Rattle.std.specs.Prelude.{◌≡◌};
ghost use Rattle.flow_machine.specs.Values.{net_with};
ghost use Rattle.flow_machine.specs.FitNets.{FitNet};
ghost use Rattle.flow_machine.specs.Joins.{Joins};

use super::Net;
use crate::body::Body;
use crate::channel::Channel;
use flow_component::Component;
use flow_plan::Connection;

/// A network in pieces: the connections of its plan, its processes, and a channel for each connection. A layer above makes turns with a body and a
/// channel apart, and joins the pieces again.
pub struct Parts<K: Component> {
    pub connections: Vec<Connection>,
    pub bodies: Vec<Body<K>>,
    pub channels: Vec<Channel>,
}

impl<K: Component> Net<K> {
    /// The network's own pieces.
    pub fn split(self) -> Parts<K>
        ensures connections { result.connections.items ≡ self.connections }
        ensures bodies { result.bodies.items ≡ self.bodies }
        ensures channels { result.channels.items ≡ self.channels }
        ensures joins { Joins K.rules (net_with result.connections.items result.bodies.items result.channels.items) }
        ensures fit { FitNet K.rules self }
    {
        let Net {
            connections,
            bodies,
            channels,
        } = self;
        Parts {
            connections,
            bodies,
            channels,
        }
    }
}

impl<K: Component> Parts<K> {
    /// The network of these pieces: connections of a valid plan, bodies that are its processes, and channels that are its connections', as `split` gives
    /// them. No state of the machine is asked for.
    pub fn join(self) -> Net<K>
        requires { Joins K.rules (net_with self.connections.items self.bodies.items self.channels.items) }
        ensures { result ≡ net_with self.connections.items self.bodies.items self.channels.items }
    {
        let Parts {
            connections,
            bodies,
            channels,
        } = self;
        Net {
            connections,
            bodies,
            channels,
        }
    }
}
