//! The packets that are left, each with the place where it is.
ghost use Rattle.std.specs.Prelude.{◌≡◌, ◌<◌, ◌++◌, length, slice_get, OnOk};
ghost use Rattle.flow_packet.specs.Tree.{id_of, chains_of};
ghost use Rattle.flow_report.specs.Left.{left_in, left_at, left_in_chain};
ghost use Rattle.flow_report.specs.declared.report.Place.TheVariants.{InHands, InConnection};

use crate::report::{LeftPacket, Place};
use flow_items::{Items, Text};
use flow_packet::Packet;
use std::alloc::{AllocError, Global};
use std::collections::VecDeque;

// A packet and its tree.
#[cycle(left)]
fn push_packet(
    alloc: Global,
    left: &mut Items<LeftPacket>,
    packet: &Packet,
    place: Place,
) -> Result<(), AllocError>
    ensures { OnOk result (left.new ≡ left.old ++ left_in place packet.now) }
{
    let id = packet.id();
    left.push(LeftPacket { packet: id, place })?;
    for at in 0..packet.chain_count() {
        push_chain(alloc, left, packet, at)?;
    }
    Ok(())
}

// The packets of a chain, each with its tree.
#[cycle(left)]
fn push_chain(
    alloc: Global,
    left: &mut Items<LeftPacket>,
    packet: &Packet,
    at: usize,
) -> Result<(), AllocError>
    requires { at < length (chains_of packet.now) }
    ensures { OnOk result (left.new ≡ left.old ++ left_in_chain (id_of packet.now) (slice_get (chains_of packet.now) at)) }
{
    let of = packet.id();
    let name = packet.chain_name(at);
    let children = packet.chain(name);
    for child in children {
        let chain = Text::from_slice(alloc, name)?;
        push_packet(alloc, left, child, Place::InChain { chain, of })?;
    }
    Ok(())
}

/// Adds the packets in the hands of a process, each followed by its tree.
pub fn push_hands(
    alloc: Global,
    left: &mut Items<LeftPacket>,
    process: u32,
    packets: &[Packet],
) -> Result<(), AllocError>
    ensures { OnOk result (left.new ≡ left.old ++ left_at (InHands process) packets.now) }
{
    for packet in packets {
        push_packet(alloc, left, packet, Place::InHands(process))?;
    }
    Ok(())
}

/// Adds the packets in a connection, each followed by its tree.
pub fn push_transit(
    alloc: Global,
    left: &mut Items<LeftPacket>,
    connection: u32,
    packets: &VecDeque<Packet>,
) -> Result<(), AllocError>
    ensures { OnOk result (left.new ≡ left.old ++ left_at (InConnection connection) packets.now.items) }
{
    for at in 0..packets.len() {
        push_packet(alloc, left, &packets[at], Place::InConnection(connection))?;
    }
    Ok(())
}
