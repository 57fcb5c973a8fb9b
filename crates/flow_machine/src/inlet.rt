//! What stands at the inputs of a process.
ghost use Rattle.std.specs.Prelude.{◌≡◌, length, map, false, slice_get, unwrap_or, IfOk, OnOk, OnErr, ◌≢◌, None};
ghost use Rattle.std.specs.Option.{option_map};
ghost use Rattle.flow_model.specs.Events.{is_connected, has_packet, has_ended, passes, holds_packet, is_over};
ghost use Rattle.flow_model.specs.Stands.{look_shown};
ghost use Rattle.flow_machine.specs.Inlets.{input_shown, is_text};
ghost use Rattle.flow_machine.specs.Texts.{text_taken};

use crate::channel::Channel;
use flow_component::Port;
use std::alloc::AllocError;

/// A connection, by its number, or an initial text.
#[derive(Drop)]
pub enum Inlet {
    Connection(u32),
    Text(Vec<u8>),
}

impl Inlet {
    fn is_text(&self) -> bool
        ensures { result ≡ is_text self.now }
    {
        match self {
            Inlet::Connection(_) => false,
            Inlet::Text(_) => true,
        }
    }
}

impl Inlet {
    pub(crate) fn is_connected(&self) -> bool
        ensures { result ≡ is_connected (input_shown self.now) }
    {
        !self.is_text()
    }

    /// Its connection holds a packet.
    pub(crate) fn has_packet(&self, channels: &[Channel]) -> bool
        ensures { result ≡ has_packet (map look_shown channels.now) (input_shown self.now) }
    {
        match self {
            Inlet::Connection(connection) => holds_packet(channels, *connection),
            Inlet::Text(_) => false,
        }
    }

    /// Its connection, if it has one, is empty and has no open sender.
    pub(crate) fn has_ended(&self, channels: &[Channel]) -> bool
        ensures { result ≡ has_ended (map look_shown channels.now) (input_shown self.now) }
    {
        match self {
            Inlet::Connection(connection) => is_over(channels, *connection),
            Inlet::Text(_) => true,
        }
    }
}

pub(crate) fn holds_packet(channels: &[Channel], connection: u32) -> bool
    ensures { result ≡ passes holds_packet (slice_get (map look_shown channels.now) connection) }
{
    match channels.get(connection as usize) {
        Some(channel) => channel.holds_packet(),
        None => false,
    }
}

pub(crate) fn is_over(channels: &[Channel], connection: u32) -> bool
    ensures { result ≡ passes is_over (slice_get (map look_shown channels.now) connection) }
{
    match channels.get(connection as usize) {
        Some(channel) => channel.is_over(),
        None => false,
    }
}

/// The initial texts are fresh again.
pub(crate) fn freshen(fresh: &mut [bool], inlets: &[Inlet])
    requires { length fresh.old ≡ length inlets.now }
    ensures { fresh.new ≡ map is_text inlets.now }
{
    for (i, inlet) in inlets.iter().enumerate() {
        fresh[i] = inlet.is_text();
    }
}

/// The text at a port is fresh.
pub(crate) fn is_fresh(fresh: &[bool], port: Port) -> bool
    ensures { result ≡ unwrap_or (slice_get fresh.now port.0) false }
{
    fresh.get(port.0 as usize).copied().unwrap_or(false)
}

/// A copy of the initial text at a port, where it is fresh.
fn next_text(inlets: &[Inlet], fresh: &[bool], port: Port) -> Result<Option<Vec<u8>>, AllocError>
    ensures copy { IfOk result (λ copy. option_map (λ text. text.items) copy ≡ text_taken (unwrap_or (slice_get fresh.now port.0) false) (slice_get (map input_shown inlets.now) port.0)) }
    ensures refused { OnErr result (text_taken (unwrap_or (slice_get fresh.now port.0) false) (slice_get (map input_shown inlets.now) port.0) ≢ None) }
{
    if !is_fresh(fresh, port) {
        return Ok(None);
    }
    match inlets.get(port.0 as usize) {
        Some(Inlet::Text(text)) => Ok(Some(Vec::from_slice(*text.allocator(), text)?)),
        Some(Inlet::Connection(_)) => Ok(None),
        None => Ok(None),
    }
}

/// Takes a copy of the initial text at a port, where it is fresh. Few turns receive a text, so it stands apart from what every turn does.
#[cold]
#[inline(never)]
pub(crate) fn take_text(
    copy: &mut Option<Vec<u8>>,
    inlets: &[Inlet],
    fresh: &[bool],
    port: Port,
) -> Result<(), AllocError>
    ensures copy { OnOk result (option_map (λ text. text.items) copy.new ≡ text_taken (unwrap_or (slice_get fresh.now port.0) false) (slice_get (map input_shown inlets.now) port.0)) }
    ensures stays { OnErr result (copy.new ≡ copy.old) }
    ensures refused { OnErr result (text_taken (unwrap_or (slice_get fresh.now port.0) false) (slice_get (map input_shown inlets.now) port.0) ≢ None) }
{
    *copy = next_text(inlets, fresh, port)?;
    Ok(())
}
