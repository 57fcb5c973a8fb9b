//! The turns of a network, one by one.
ghost use Rattle.std.specs.Prelude.{IfSome};
ghost use Rattle.flow_rig.specs.Turns.{ThinksAndSees, ThinksAndTurns};

use flow_component::{Component, NoGate};
use flow_machine::{Net, Thought, Turn};

/// What the next turn of a process comes to, after its work. None: there is no such process, or its work wanted memory or failed.
pub fn next_turn<K: Component>(net: &mut Net<K>, process: u32) -> Option<Turn>
    ensures { IfSome result (λ turn. ThinksAndTurns K.rules net.old process turn net.new) }
{
    if process >= net.processes() {
        return None;
    }
    match net.think(process, &NoGate) {
        Thought::Wishing => {
            let stamp = net.turns_made();
            Some(net.turn(process, stamp))
        }
        _ => None,
    }
}

/// The same where the process asks for a level, and is told this number, if it may be. None: it doesn't ask for one, or comes to no turn.
pub fn seen_turn<K: Component>(net: &mut Net<K>, process: u32, seen: u32) -> Option<Option<Turn>>
    ensures { IfSome result (λ turn. ThinksAndSees K.rules net.old process seen turn net.new) }
{
    if process >= net.processes() {
        return None;
    }
    match net.think(process, &NoGate) {
        Thought::Wishing => {
            if !net.wishes_level(process) {
                return None;
            }
            let stamp = net.turns_made();
            Some(net.turn_seen(process, stamp, seen))
        }
        _ => None,
    }
}
