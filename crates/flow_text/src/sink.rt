//! A sink in memory, which fails where it is told to.
ghost use Rattle.std.specs.Prelude.{◌≡◌, ◌≤◌, IfOk};
ghost use Rattle.flow_text.specs.Edge.{Writes};

use crate::edge::{Edge, Fault, Sink};
use crate::folder::extend_within;
use crate::mem::{is_listed, is_stuck};
use std::alloc::{AllocError, Global};
use std::marker::Model;

/// Bytes in memory. The writes are numbered from 1, and those fail whose numbers are given.
#[derive(Drop)]
pub struct MemSink {
    bytes: Vec<u8>,
    piece: usize,
    room: usize,
    write_fails: Vec<u64>,
    writes: u64,
    write_faults: u64,
}

impl Model for MemSink {
    ghost use Rattle.std.specs.Prelude.{◌≤◌, vec_capacity};
    ghost use Rattle.flow_text.specs.Sink.{Sunk};

    ghost Value = { Sunk };

    ghost view = { λ s. record {
      bytes = s.bytes.items;
      piece = s.piece;
      room = s.room;
      writes = s.writes;
      write_fails = s.write_fails.items;
      write_faults = s.write_faults;
    } };

    ghost invariant = { λ s. (1 ≤ s.piece) × (s.room ≤ vec_capacity s.bytes) };
}

impl MemSink {
    ghost use Rattle.flow_text.specs.Sink.{new_sink};

    /// A sink that takes at most `piece` bytes in a write and at most `room` in all. Its room is taken here.
    pub fn new(
        alloc: Global,
        piece: usize,
        room: usize,
        write_fails: Vec<u64>,
    ) -> Result<Self, AllocError>
        requires { 1 ≤ piece }
        ensures { IfOk result (λ sink. sink ≡ new_sink piece room write_fails.items) }
    {
        Ok(MemSink {
            bytes: Vec::with_capacity(alloc, room)?,
            piece,
            room,
            write_fails,
            writes: 0,
            write_faults: 0,
        })
    }

    /// What it took.
    pub fn bytes(&self) -> &[u8]
        ensures { result.now ≡ self.now.bytes }
    {
        &self.bytes
    }
}

impl Edge for MemSink {
    ghost use Rattle.flow_text.specs.Sink.{outside_of};

    ghost outside = { outside_of };
}

impl Sink for MemSink {
    ghost use Rattle.flow_text.specs.Sink.{outside_of, MemWrites};

    fn write(&mut self, bytes: &[u8]) -> Result<usize, Fault>
        ensures writes { Writes (outside_of self.old) (outside_of self.new) result bytes.now }
        ensures exact { MemWrites self.old self.new result bytes.now }
    {
        self.writes = self.writes.saturating_add(1);
        let left = self.room.saturating_sub(self.bytes.len());
        let n = bytes.len().min(self.piece).min(left);
        if is_listed(&self.write_fails, self.writes) || is_stuck(bytes, n) {
            self.write_faults = self.write_faults.saturating_add(1);
            return Err(Fault);
        }
        extend_within(&mut self.bytes, &bytes[..n]);
        Ok(n)
    }
}
