//! What the components of this crate share: one input, an output for what they pick, and one for the rest.

use flow_component::{Port, Shape};

pub(crate) const IN: Port = Port(0);

pub(crate) const OUT: Port = Port(0);

pub(crate) const REST: Port = Port(1);

pub(crate) const SHAPE: Shape = Shape {
    inputs: 1,
    outputs: 2,
};
