//! A connection of a network that runs.
ghost use Rattle.std.specs.Prelude.{◌≡◌, ◌+◌, ◌-◌, ◌^◌, ◌<◌, ◌↔◌, [], ◌∷◌, ◌++◌, length, drop, IsTrue, IfOk};
ghost use Rattle.flow_model.specs.Events.{holds_packet, is_over};
ghost use Rattle.flow_model.specs.Stands.{look_shown};

use flow_packet::Packet;
use std::alloc::{AllocError, Global};
use std::collections::VecDeque;
use std::marker::Model;

/// A connection: its packets, oldest first, its capacity, how many senders are open, and how many packets were put.
pub struct Channel {
    packets: VecDeque<Packet>,
    capacity: u32,
    open_senders: u32,
    puts: u64,
}

impl Model for Channel {
    ghost use Rattle.std.specs.Prelude.{◌-◌, ◌≤◌, length};
    ghost use Rattle.std.specs.VecDeque.{deque_capacity};
    ghost use Rattle.flow_model.specs.Stands.{ChannelShown};
    ghost use Rattle.flow_machine.specs.Codes.{channel_code};
    ghost use Rattle.flow_machine.specs.Rooms.{HasPlaces};

    ghost Value = { ChannelShown };

    ghost coded = { channel_code };

    ghost view = { λ c. record { packets = c.packets.items; capacity = c.capacity; open_senders = c.open_senders; puts = c.puts; takes = c.puts - length c.packets.items } };

    ghost invariant = { λ c. HasPlaces c.capacity (deque_capacity c.packets) (length c.packets.items) c.puts };
}

impl Channel {
    /// An empty connection, which takes the places of its capacity at once.
    pub(crate) fn new(
        alloc: Global,
        capacity: u32,
        open_senders: u32,
    ) -> Result<Channel, AllocError>
        ensures { IfOk result (λ channel. channel ≡ record { packets = []; capacity = capacity; open_senders = open_senders; puts = 0; takes = 0 }) }
    {
        let packets = VecDeque::with_capacity(alloc, capacity as usize)?;
        Ok(Channel {
            packets,
            capacity,
            open_senders,
            puts: 0,
        })
    }

    /// The packets, oldest first.
    pub fn packets(&self) -> &VecDeque<Packet>
        ensures { result.now.items ≡ self.now.packets }
    {
        &self.packets
    }

    /// How many senders are open.
    pub fn open_senders(&self) -> u32
        ensures { result ≡ self.now.open_senders }
    {
        self.open_senders
    }

    /// How many packets were put.
    pub fn puts(&self) -> u64
        ensures { result ≡ self.now.puts }
    {
        self.puts
    }

    /// How many packets were taken.
    pub fn takes(&self) -> u64
        ensures { result ≡ self.now.takes }
    {
        self.puts - self.packets.len() as u64
    }

    /// How many packets it takes.
    pub fn capacity(&self) -> u32
        ensures { result ≡ self.now.capacity }
    {
        self.capacity
    }

    /// How many packets are in it.
    pub fn level(&self) -> usize
        ensures { result ≡ length self.now.packets }
    {
        self.packets.len()
    }

    pub(crate) fn holds_packet(&self) -> bool
        ensures { result ≡ holds_packet (look_shown self.now) }
    {
        !self.packets.is_empty()
    }

    /// It is empty, and no sender is open.
    pub(crate) fn is_over(&self) -> bool
        ensures { result ≡ is_over (look_shown self.now) }
    {
        self.packets.is_empty() && self.open_senders == 0
    }

    pub(crate) fn has_room(&self) -> bool
        ensures { IsTrue result ↔ (length self.now.packets < self.now.capacity) }
    {
        self.packets.len() < self.capacity as usize
    }

    /// Puts a packet at the end. Takes no memory.
    pub fn put(&mut self, packet: Packet)
        requires room { length self.old.packets < self.old.capacity }
        requires counted { self.old.puts < 2 ^ 64 - 1 }
        ensures { self.new ≡ record self.old { packets = self.old.packets ++ packet ∷ []; puts = self.old.puts + 1 } }
    {
        self.packets.push_back_reserved(packet);
        self.puts += 1;
    }

    /// Takes the oldest packet.
    pub fn take(&mut self) -> Packet
        requires { 0 < length self.old.packets }
        ensures oldest { self.old.packets ≡ result ∷ self.new.packets }
        ensures rest { self.new ≡ record self.old { packets = drop 1 self.old.packets; takes = self.old.takes + 1 } }
    {
        match self.packets.pop_front() {
            Some(packet) => packet,
            None => unreachable!(),
        }
    }

    /// Makes one open sender fewer.
    pub fn close_one(&mut self)
        requires { 0 < self.old.open_senders }
        ensures { self.new ≡ record self.old { open_senders = self.old.open_senders - 1 } }
    {
        self.open_senders -= 1;
    }

    /// An empty connection goes on with these open senders, as if this many packets had been put and taken. Takes no memory.
    pub fn restart(&mut self, open_senders: u32, takes: u64)
        requires { self.old.packets ≡ [] }
        ensures { self.new ≡ record self.old { open_senders = open_senders; puts = takes; takes = takes } }
    {
        self.open_senders = open_senders;
        self.puts = takes;
    }

    /// Spends the packets that are in it. Only calls that give up a whole run use it.
    pub fn discard(self) {
        let Channel {
            mut packets,
            capacity: _,
            open_senders: _,
            puts: _,
        } = self;
        while let Some(packet) = packets.pop_front() {
            packet.discard();
        }
        packets.destroy_empty();
    }
}
