ghost use Rattle.std.specs.Prelude.{◌≡◌, ◌≤◌, ◌<◌, [], Some, length, IfOk, OnErr};
ghost use Rattle.fw_shelf.specs.Faults.{Rose};
ghost use Rattle.fw_shelf.specs.MemSink.{answer_to, after_write, IsLater, IsLater-same, IsLater-again, IsLater-faults};

use crate::sink::{Sink, SinkFailed};
use fw_types::OutOfMemory;
use std::alloc::Global;
use std::marker::Model;

/// A sink in memory, whose bytes a contract knows and which fails at chosen writes.
#[derive(Drop)]
pub struct MemSink {
    bytes: Vec<u8>,
    room: usize,
    step: usize,
    failing_writes: Vec<u64>,
    writes: u64,
    faults: u64,
}

impl Model for MemSink {
    ghost use Rattle.std.specs.Prelude.{vec_len, vec_capacity};
    ghost use Rattle.fw_shelf.specs.MemSink.{SinkInMemory, IsReserved};

    ghost Value = { SinkInMemory };

    ghost view = { λ sink. record {
      bytes = sink.bytes.items;
      room = sink.room;
      step = sink.step;
      failing_writes = sink.failing_writes.items;
      writes = sink.writes;
      faults = sink.faults;
    } };

    ghost invariant = { λ sink.
        IsReserved (vec_len sink.bytes) (vec_capacity sink.bytes) sink.room sink.step };
}

impl MemSink {
    /// An empty sink with room for `room` bytes, which it reserves. One write takes at most `step`
    /// bytes, which is at least 1. A write takes no memory.
    ///
    /// Writes are numbered from 1. A write fails if its number is in `failing_writes`, or if its
    /// piece is not empty and no room is left, and for no other cause. The numbers stop at
    /// 2^64 - 1, and so does the count of faults.
    ///
    /// # Errors
    ///
    /// `OutOfMemory` if there is no memory for the room.
    pub fn new(
        alloc: Global,
        room: usize,
        step: usize,
        failing_writes: Vec<u64>,
    ) -> Result<MemSink, OutOfMemory>
        requires { 0 < step }
        ensures { IfOk result
            (λ sink. sink
            ≡ record {
              bytes = [];
              room = room;
              step = step;
              failing_writes = failing_writes.items;
              writes = 0;
              faults = 0;
            }) }
    {
        let bytes = Vec::with_capacity(alloc, room)?;
        Ok(MemSink {
            bytes,
            room,
            step,
            failing_writes,
            writes: 0,
            faults: 0,
        })
    }

    /// The bytes taken so far.
    pub fn taken(&self) -> &[u8]
        ensures { result.now ≡ self.now.bytes }
    {
        self.bytes.as_slice()
    }
}

impl Sink for MemSink {
    ghost taken = { λ sink. Some sink.bytes };

    ghost faults = { λ sink. sink.faults };

    ghost becomes = { IsLater };

    ghost becomes_same = { IsLater-same };

    ghost becomes_again = { IsLater-again };

    ghost becomes_faults = { IsLater-faults };

    fn write(&mut self, piece: &[u8]) -> Result<usize, SinkFailed>
        ensures answer { result ≡ answer_to self.old piece.now }
        ensures after { self.new ≡ after_write self.old piece.now }
        ensures at_least_one { IfOk result (λ n. 0 < length piece.now → 0 < n) }
        ensures rose { OnErr result (Rose self.old.faults self.new.faults) }
        ensures faults { self.old.faults ≤ self.new.faults }
        ensures becomes { IsLater self.old self.new }
    {
        self.writes = self.writes.saturating_add(1);
        let left = self.room - self.bytes.len();
        let full = !piece.is_empty() && left == 0;
        if full || self.failing_writes.contains(&self.writes) {
            self.faults = self.faults.saturating_add(1);
            return Err(SinkFailed);
        }
        let share = piece.len().min(self.step).min(left);
        self.bytes.extend_from_slice(&piece[..share]).unwrap();
        Ok(share)
    }
}
