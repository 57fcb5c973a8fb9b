//! What an idle process sees of its inputs.
ghost use Rattle.std.specs.Prelude.{◌≡◌, map};
ghost use Rattle.std.specs.List.{list_any, list_all};
ghost use Rattle.flow_model.specs.Stands.{look_shown};
ghost use Rattle.flow_model.specs.Events.{is_released, can_start, can_finish, takes_signal, signal_over, has_packet, has_ended, is_connected};
ghost use Rattle.flow_machine.specs.Inlets.{input_shown, signal_source, watches_signal};

use super::Body;
use crate::channel::Channel;
use crate::inlet::{Inlet, holds_packet, is_over};
use flow_component::Component;

fn any_packet(inlets: &[Inlet], channels: &[Channel]) -> bool
    ensures { result ≡ list_any (has_packet (map look_shown channels.now)) (map input_shown inlets.now) }
{
    for inlet in inlets {
        if inlet.has_packet(channels) {
            return true;
        }
    }
    false
}

pub(crate) fn any_connected(inlets: &[Inlet]) -> bool
    ensures { result ≡ list_any is_connected (map input_shown inlets.now) }
{
    for inlet in inlets {
        if inlet.is_connected() {
            return true;
        }
    }
    false
}

fn all_ended(inlets: &[Inlet], channels: &[Channel]) -> bool
    ensures { result ≡ list_all (has_ended (map look_shown channels.now)) (map input_shown inlets.now) }
{
    for inlet in inlets {
        if !inlet.has_ended(channels) {
            return false;
        }
    }
    true
}

/// The connection at an automatic input, if there is one, is empty and has no open sender.
fn has_no_signal(signal: Option<u32>, channels: &[Channel]) -> bool
    ensures { result ≡ signal_over (map look_shown channels.now) signal }
{
    match signal {
        Some(connection) => is_over(channels, connection),
        None => true,
    }
}

impl<K: Component> Body<K> {
    /// A packet came at its automatic input, or none can come there.
    fn is_released(&self, channels: &[Channel]) -> bool
        ensures { result ≡ is_released (map look_shown channels.now) self.now.process }
    {
        self.signalled || has_no_signal(self.signal, channels)
    }

    /// Idle, it would start: it is released; and a connected input holds a packet, or it has no connected input and hasn't run.
    pub(crate) fn can_start(&self, channels: &[Channel]) -> bool
        ensures { result ≡ can_start (map look_shown channels.now) self.now.process }
    {
        self.is_released(channels)
            && (any_packet(&self.inlets, channels)
                || (!any_connected(&self.inlets) && !self.has_run))
    }

    /// Every connected input is empty and has no open sender, the automatic one among them.
    pub(crate) fn can_finish(&self, channels: &[Channel]) -> bool
        ensures { result ≡ can_finish (map look_shown channels.now) self.now.process }
    {
        all_ended(&self.inlets, channels) && has_no_signal(self.signal, channels)
    }

    /// The connection at its automatic input, if a packet is there.
    pub(crate) fn signal_source(&self, channels: &[Channel]) -> Option<u32>
        ensures { result ≡ signal_source (map look_shown channels.now) self.now.process.signal }
    {
        let connection = self.signal?;
        if holds_packet(channels, connection) {
            Some(connection)
        } else {
            None
        }
    }

    /// Idle, it would take a packet from its automatic input, if one is there.
    pub(crate) fn takes_signal(&self, channels: &[Channel]) -> bool
        ensures { result ≡ takes_signal (map look_shown channels.now) self.now.process }
    {
        !self.signalled
            || (all_ended(&self.inlets, channels) && (any_connected(&self.inlets) || self.has_run))
    }

    /// Idle, it watches its automatic input alone: it has one, and isn't released, or nothing comes at its other inputs any more.
    pub(crate) fn watches_signal(&self, channels: &[Channel]) -> bool
        ensures { result ≡ watches_signal (map look_shown channels.now) self.now.process }
    {
        self.signal.is_some() && (!self.is_released(channels) || all_ended(&self.inlets, channels))
    }
}
