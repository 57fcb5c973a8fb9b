//! The chains of a packet.

ghost use Rattle.std.specs.Prelude.{◌≡◌, ◌+◌, ◌-◌, ◌^◌, ◌<◌, ◌++◌, length, min, OnOk, IfOk, IfErr, ◌∷◌, [], position};
ghost use Rattle.flow_packet.specs.Tree.{chain_ids, chains_height};
ghost use Rattle.flow_packet.specs.View.{chain_of, chains_in, is_named};

use crate::id::PacketId;
use crate::packet::Packet;
use crate::queue::{Queue, packets_height, push_all_ids};
use flow_limits::HEIGHT_LIMIT;
use std::alloc::{AllocError, Global};

#[cycle(packet)]
pub(crate) struct Chain {
    pub(crate) name: Vec<u8>,
    pub(crate) packets: Queue,
}

impl Chain {
    pub(crate) fn new(alloc: Global, name: &[u8], packet: Packet) -> Result<Chain, Packet>
        ensures made { IfOk result (λ chain. chain_of chain ≡ (name.now, packet ∷ [])) }
        ensures err { IfErr result (λ back. back ≡ packet) }
    {
        let Ok(name) = Vec::from_slice(alloc, name) else {
            return Err(packet);
        };
        let mut packets = Queue::new(alloc);
        match packets.push(packet) {
            Ok(()) => Ok(Chain { name, packets }),
            Err(packet) => {
                packets.destroy_empty();
                Err(packet)
            }
        }
    }

    pub(crate) fn spend(self) {
        let Chain { name: _, packets } = self;
        let _ = packets.spend(0);
    }
}

#[cycle(spend)]
pub(crate) fn spend_chains(mut chains: Vec<Chain>, mut count: u64) -> u64
    ensures { result ≡ min (count + length (chain_ids (chains_in chains.items))) (2 ^ 64 - 1) }
{
    while let Some(chain) = chains.pop() {
        let Chain { name: _, packets } = chain;
        count = packets.spend(count);
    }
    chains.destroy_empty();
    count
}

#[cycle(height)]
pub(crate) fn chains_height(chains: &[Chain]) -> u32
    requires { chains_height (chains_in chains.now) < HEIGHT_LIMIT }
    ensures { result ≡ chains_height (chains_in chains.now) }
{
    let mut most = 0;
    for chain in chains {
        most = most.max(packets_height(chain.packets.packets()));
    }
    most
}

pub(crate) fn place_of(chains: &[Chain], name: &[u8]) -> Option<usize>
    ensures { result ≡ position (is_named name.now) chains.now }
{
    chains
        .iter()
        .position(|chain| chain.name.as_slice() == name)
}

#[cycle(push_ids)]
pub(crate) fn push_chain_ids(chains: &[Chain], out: &mut Vec<PacketId>) -> Result<(), AllocError>
    ensures { OnOk result (out.new.items ≡ out.old.items ++ chain_ids (chains_in chains.now)) }
{
    for chain in chains {
        push_all_ids(chain.packets.packets(), out)?;
    }
    Ok(())
}
