//! What the rule of the table says of a floor on which a worker has read 0: the law is the contract of a function that does nothing.
ghost use Rattle.flow_floor.specs.Still.{StandsStillAtZero};

use flow_component::Component;

/// Once a worker has read 0, nobody holds a process, no work is pending, no process but a starved one has a turn, and each that has ended or failed was
/// told its end; and so it stays, whatever the workers do.
pub fn no_process_moves_once_a_worker_has_read_zero<K: Component>()
    ensures { StandsStillAtZero K.rules }
{}
