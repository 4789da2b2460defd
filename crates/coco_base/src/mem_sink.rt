ghost use Rattle.std.specs.Prelude.{◌≡◌, ℕ, ◌+◌, ◌-◌, ◌<◌, ◌≤◌, ◌++◌, [], List, Option, Some, length, min, take, IfOk, IsOk, IsErr, OnErr, ◌↔◌};
ghost use Rattle.coco_base.specs.Causes.{HasCause, next_count};
ghost use Rattle.coco_base.specs.Outside.{after};

use crate::fault::{Failed, NoMemory};
use crate::sink::Sink;
use std::alloc::Global;
use std::marker::Model;

/// A sink in memory, for tests: it takes bytes until `room` bytes are there, and then fails on each write that is not
/// empty.
#[derive(Debug, Drop)]
pub struct MemSink {
    room: usize,
    taken: Vec<u8>,
    faults: u64,
}

impl Model for MemSink {
    ghost use Rattle.std.specs.Prelude.{◌≤◌, vec_len, vec_capacity};
    ghost use Rattle.coco_base.specs.Memory.{SinkState};

    ghost Value = { SinkState };

    ghost view = { λ s. record { room = s.room; taken = s.taken.items; faults = s.faults } };

    ghost invariant = { λ s. (vec_len s.taken ≤ s.room) × (s.room ≤ vec_capacity s.taken) };
}

impl MemSink {
    /// An empty sink. The memory for `room` bytes is taken here, so that a write needs none.
    pub fn new(alloc: Global, room: usize) -> Result<Self, NoMemory>
        ensures { IfOk result (λ s. s ≡ record { room = room; taken = []; faults = 0 }) }
    {
        Ok(MemSink {
            room,
            taken: Vec::with_capacity(alloc, room)?,
            faults: 0,
        })
    }

    /// The bytes so far.
    pub fn bytes(&self) -> &[u8]
        ensures { result.now ≡ self.now.taken }
    {
        self.taken.as_slice()
    }
}

impl Sink for MemSink {
    ghost taken = { λ s. Some s.taken };

    ghost faults = { λ s. s.faults };

    fn write(&mut self, piece: &[u8]) -> Result<usize, Failed>
        ensures count { IfOk result (λ n. n ≤ length piece.now) }
        ensures some { IfOk result (λ n. 0 < length piece.now → 0 < n) }
        ensures empty { length piece.now ≡ 0 → IsOk result }
        ensures ok { IfOk result (λ n. Some self.new.taken ≡ after (Some self.old.taken) (take n piece.now)) }
        ensures err { OnErr result (Some self.new.taken ≡ Some self.old.taken) }
        ensures cause { HasCause self.old.faults self.new.faults result }

        // exactly which writes fail, how much a write takes, and what stays
        ensures fails { IsErr result ↔ ((0 < length piece.now) × (length self.old.taken ≡ self.old.room)) }
        ensures takes { IfOk result (λ n. n ≡ min (length piece.now) (self.old.room - length self.old.taken)) }
        ensures kept { IfOk result (λ _. self.new ≡ record self.old { taken = self.new.taken }) }
        ensures failed { OnErr result (self.new ≡ record self.old { faults = next_count self.old.faults }) }
    {
        let left = self.room - self.taken.len();
        if left == 0 && !piece.is_empty() {
            self.faults = self.faults.saturating_add(1);
            return Err(Failed);
        }
        let count = piece.len().min(left);
        self.taken.extend_from_slice(&piece[..count]).unwrap();
        Ok(count)
    }
}
