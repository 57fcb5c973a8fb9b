//! What an idle process sees at its inputs.
ghost use Rattle.std.specs.Prelude.{◌≡◌, ℕ, ◌<◌, None, Some, [], slice_get};
ghost use Rattle.flow_model.specs.States.{From};
ghost use Rattle.flow_floor.specs.Floors.{connection_count, process_count, IsHeldAt, IsMidwayAt, IsSameWorker, IsWiredAt, WakesNone};
ghost use Rattle.flow_floor.specs.Looks.{Finds, FindsHeld, Idles, Saws, first_open};
ghost use Rattle.flow_floor.specs.Midway.{receiving_by, receiving_for};
ghost use Rattle.flow_floor.specs.Workers.{view, LooksOn};

use crate::floor::{Drawn, Floor, Held, Idling, Saw, Signalled, Worker};
use flow_component::Component;
use flow_ring::{level, senders};
use std::marker::Brand;

/// The word that was found before, or else this one, if it has an open sender.
fn first_open(found: Option<u64>, word: u64) -> Option<u64>
    ensures { result ≡ first_open found word }
{
    match found {
        Some(found) => Some(found),
        None => { if senders(word) == 0 { None } else { Some(word) } }
    }
}

impl<K: Component> Floor<K> {
    /// Looks at the connected inputs one by one, up to one that holds a packet.
    pub(crate) fn look_over(&self, worker: &mut Worker<K>, held: &Held<K>) -> Saw
        requires held { IsHeldAt K.rules self.now worker.old held.now }
        requires wired { (i c : ℕ) → slice_get held.now.body.process.inputs i ≡ Some (From c) → c < connection_count self.now }
        ensures held { IsHeldAt K.rules self.now worker.new held.now }
        ensures looks { LooksOn (view worker.old) (view worker.new) }
        ensures seat { IsSameWorker worker.old worker.new }
        ensures none { WakesNone worker.old worker.new }
        ensures saw { Saws (process_count self.now) (view worker.old).steps held.now.body.process.inputs (view worker.new).seen result }
    {
        let mut open = None;
        for i in 0..held.body.inputs() {
            if let Some(connection) = held.body.input(i) {
                let word = self.look(worker, held, connection as usize);
                if level(word) != 0 {
                    return Saw::Packet;
                }
                open = first_open(open, word);
            }
        }
        match open {
            Some(word) => Saw::Sender(word),
            None => Saw::Over,
        }
    }

    /// Draws the oldest packet at the automatic input, if it has a connection and a packet is there.
    fn draw_signal(&self, worker: &mut Worker<K>, held: &Held<K>) -> Signalled
        requires held { IsHeldAt K.rules self.now worker.old held.now }
        requires wired { (c : ℕ) → held.now.body.process.signal ≡ Some c → c < connection_count self.now }
        ensures held { IsMidwayAt K.rules self.now worker.new held.now None (receiving_by result) [] }
        ensures looks { LooksOn (view worker.old) (view worker.new) }
        ensures seat { IsSameWorker worker.old worker.new }
        ensures none { WakesNone worker.old worker.new }
        ensures finds { Finds (process_count self.now) (view worker.old).steps held.now.body.process.signal (view worker.new).seen result }
    {
        let Some(connection) = held.body.signal() else {
            return Signalled::Over;
        };
        match self.draw::<Brand>(worker, held, connection as usize, 0) {
            Drawn::Packet(_, packet) => Signalled::Packet(connection, packet),
            Drawn::Nothing(word) => match first_open(None, word) {
                Some(word) => Signalled::Sender(word),
                None => Signalled::Over,
            },
        }
    }

    /// Looks whether the process is released, which it is where a packet came at its automatic input before. Where it isn't, and a packet is there, the
    /// packet is drawn.
    fn look_released(&self, worker: &mut Worker<K>, held: &Held<K>) -> Signalled
        requires held { IsHeldAt K.rules self.now worker.old held.now }
        requires wired { IsWiredAt self.now held.now }
        ensures held { IsMidwayAt K.rules self.now worker.new held.now None (receiving_by result) [] }
        ensures looks { LooksOn (view worker.old) (view worker.new) }
        ensures seat { IsSameWorker worker.old worker.new }
        ensures none { WakesNone worker.old worker.new }
        ensures finds { FindsHeld (process_count self.now) (view worker.old).steps held.now.body.process (view worker.new).seen result }
    {
        if held.body.signalled() {
            return Signalled::Over;
        }
        self.draw_signal(worker, held)
    }

    /// Looks at the automatic input, at the stream inputs, and at the automatic input again, as far as it is needed to tell what the process does. A packet
    /// that it takes from its automatic input is drawn.
    pub(crate) fn look_idle(&self, worker: &mut Worker<K>, held: &Held<K>) -> Idling
        requires held { IsHeldAt K.rules self.now worker.old held.now }
        requires wired { IsWiredAt self.now held.now }
        ensures held { IsMidwayAt K.rules self.now worker.new held.now None (receiving_for result) [] }
        ensures looks { LooksOn (view worker.old) (view worker.new) }
        ensures seat { IsSameWorker worker.old worker.new }
        ensures none { WakesNone worker.old worker.new }
        ensures idles { Idles (process_count self.now) (view worker.old).steps held.now.body.process (view worker.new).seen result }
    {
        match self.look_released(worker, held) {
            Signalled::Packet(connection, packet) => return Idling::Signal(connection, packet),
            Signalled::Sender(word) => return Idling::Dormant(word),
            Signalled::Over => {}
        }
        match self.look_over(worker, held) {
            Saw::Packet => return Idling::Start,
            Saw::Sender(word) => return Idling::Dormant(word),
            Saw::Over => {}
        }
        if !held.body.is_connected() && !held.body.has_run() {
            return Idling::Start;
        }
        match self.draw_signal(worker, held) {
            Signalled::Packet(connection, packet) => Idling::Signal(connection, packet),
            Signalled::Sender(word) => Idling::Dormant(word),
            Signalled::Over => Idling::Finish,
        }
    }
}
