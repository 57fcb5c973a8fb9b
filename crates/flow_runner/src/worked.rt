//! A run by workers that is over.

use crate::turns::Turns;
use flow_component::Component;
use flow_machine::Closed;

/// The workers that made the turns of a run: how many they were, and, for clauses alone, the turns that each of them made until its floor was closed; or
/// nobody, where one thread made the turns. Only a run makes a crew that has workers.
#[derive(Drop)]
pub struct Crew {
    pub(crate) count: usize,
    pub(crate) turns: Turns,
}

/// A run by workers that is over: the network with the processes that found no memory, and who made its turns.
pub struct Worked<K: Component> {
    pub closed: Closed<K>,
    pub crew: Crew,
}
