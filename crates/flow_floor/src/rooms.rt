//! The room for a floor's end.
use flow_component::Component;
use flow_machine::{Body, Channel};

/// Where the pieces of a net are put together again, and the starved processes are listed. While the floor stands the connections lie here without their
/// packets, and nothing else.
pub struct Rooms<K: Component> {
    pub(crate) bodies: Vec<Body<K>>,
    pub(crate) channels: Vec<Channel>,
    pub(crate) starved: Vec<u32>,
}
