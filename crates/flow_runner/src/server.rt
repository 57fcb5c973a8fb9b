//! A worker at the lines.

use crate::line::LinePass;
use crate::watch::Watch;
use flow_component::Component;
use flow_floor::Worker;

/// A worker, with its passes of all lines. Its own line has the number of its watch.
#[derive(Drop)]
pub struct Server<K: Component> {
    pub(crate) worker: Worker<K>,
    pub(crate) passes: Vec<LinePass>,
    pub(crate) watch: Watch,
}
