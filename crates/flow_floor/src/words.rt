//! The words with which a floor begins.
ghost use Rattle.std.specs.Prelude.{◌≡◌, ◌+◌, ◌≤◌, length, IfOk};
ghost use Rattle.flow_limits.specs.declared.TheConstants.{CONNECTION_LIMIT};
ghost use Rattle.flow_ring.specs.Places.{word_count};
ghost use Rattle.flow_floor.specs.Ends.{capacities_of};
ghost use Rattle.flow_floor.specs.Opening.{AreReady, AreSameBut, AreSound, FirstWords, HaveLevels};

use flow_component::Component;
use flow_machine::Net;
use flow_ring::{Layout, pack};
use std::alloc::{AllocError, Global};

const READY: u64 = 2;

const FREE: u64 = 0;

/// Lays the words of the processes, all of which are ready.
fn lay_processes(layout: &Layout, words: &mut Vec<u64>)
    requires wide { length words.old.items ≡ word_count layout.now.processes layout.now.connections }
    ensures ready { AreReady layout.now.processes words.new.items }
    ensures others { AreSameBut 0 layout.now.processes words.old.items words.new.items }
    ensures wide { length words.new.items ≡ length words.old.items }
{
    for process in 0..layout.processes {
        words[layout.process_word(process)] = READY;
    }
}

/// Lays the level words.
fn lay_levels<K: Component>(layout: &Layout, net: &Net<K>, words: &mut Vec<u64>)
    requires count { layout.now.connections ≡ length net.now.channels }
    requires few { length net.now.channels ≤ CONNECTION_LIMIT }
    requires sound { AreSound net.now.channels }
    requires wide { length words.old.items ≡ word_count layout.now.processes layout.now.connections }
    ensures levels { HaveLevels layout.now.processes net.now.channels layout.now.connections words.new.items }
    ensures others { AreSameBut layout.now.processes (layout.now.processes + layout.now.connections) words.old.items words.new.items }
    ensures wide { length words.new.items ≡ length words.old.items }
{
    for connection in 0..layout.connections {
        let channel = net.channel(connection as u32);
        let word = pack(channel.level() as u32, channel.open_senders());
        words[layout.level_word(connection)] = word;
    }
}

/// The words at the start.
pub(crate) fn first_words<K: Component>(
    alloc: Global,
    layout: &Layout,
    net: &Net<K>,
) -> Result<Vec<u64>, AllocError>
    requires processes { layout.now.processes ≡ length net.now.bodies }
    requires connections { layout.now.connections ≡ length (capacities_of net.now) }
    requires few { length net.now.channels ≤ CONNECTION_LIMIT }
    requires sound { AreSound net.now.channels }
    ensures { IfOk result (λ words. FirstWords net.now words.items) }
{
    // All gates are free.
    let mut words = vec![in alloc; FREE; layout.words()]?;
    lay_processes(layout, &mut words);
    lay_levels(layout, net, &mut words);
    words[layout.clock()] = net.turns_made() as u64;
    words[layout.live()] = layout.processes as u64;
    Ok(words)
}
