ghost use Rattle.std.specs.Prelude.{◌≡◌, ◌+◌, ◌-◌, ◌<◌, ◌≤◌, ◌↔◌, ◌⊎◌, [], Some, length, min, Contains, IsErr, is_err, IfOk, if◌then◌else◌};
ghost use Rattle.std.specs.Io.KnownBytes.{WriteAppends};
ghost use Rattle.sg_io.specs.Causes.{HasCause, raised};

use crate::calls::Calls;
use crate::sinks::Sink;
use crate::sources::{Failed, count_fault};
use std::alloc::{AllocError, Global};
use std::marker::Model;

/// A sink over memory of a fixed room, which fails at chosen writes and once the room is full.
///
/// A proof sees it as the bytes that it has taken, the most that a write takes, the room, the
/// numbers of the writes that fail, and the counts of writes and faults. The room is taken when
/// the sink is made, so writes take no memory.
#[derive(Debug, Drop)]
pub struct MemorySink {
    bytes: Vec<u8>,
    piece: usize,
    room: usize,
    calls: Calls,
}

impl Model for MemorySink {
    ghost use Rattle.std.specs.Prelude.{◌<◌, ◌≤◌, vec_len, vec_capacity};
    ghost use Rattle.sg_io.specs.Memory.{SinkState};

    ghost Value = { SinkState };

    ghost view = { λ s. record { taken = s.bytes.items; piece = s.piece; room = s.room; fails = s.calls.fails.items; calls = s.calls.made; faults = s.calls.faults } };

    ghost invariant = { λ s. (0 < s.piece) × (vec_len s.bytes ≤ s.room) × (s.room ≤ vec_capacity s.bytes) };
}

impl MemorySink {
    /// A sink that takes at most `piece` bytes a write and `room` bytes in all, and whose writes
    /// with the numbers in `fails` fail. The first write has the number 1.
    pub fn new(
        alloc: Global,
        piece: usize,
        room: usize,
        fails: Vec<u32>,
    ) -> Result<MemorySink, AllocError>
        requires { 0 < piece }
        ensures { IfOk result (λ sink. sink ≡ record { taken = []; piece = piece; room = room; fails = fails.items; calls = 0; faults = 0 }) }
    {
        Ok(MemorySink {
            bytes: Vec::with_capacity(alloc, room)?,
            piece,
            room,
            calls: Calls::new(fails),
        })
    }

    /// The bytes that the sink has taken, at most its room.
    pub fn taken(&self) -> &[u8]
        ensures bytes { result.now ≡ self.now.taken }
        ensures room { length result.now ≤ self.now.room }
    {
        self.bytes.as_slice()
    }
}

impl Sink for MemorySink {
    ghost taken = { λ s. Some s.taken };

    ghost faults = { λ s. s.faults };

    /// Fails exactly where its number is in `fails` or the room is full, and else takes the least
    /// of the most that a write takes, the length of `piece` and the room that is left.
    fn write(&mut self, piece: &[u8]) -> Result<usize, Failed>
        requires { 0 < length piece.now }

        // As each sink.
        ensures some { IfOk result (λ n. 0 < n) }
        ensures bound { IfOk result (λ n. n ≤ length piece.now) }
        ensures bytes { WriteAppends (Some self.old.taken) (Some self.new.taken) result piece.now }
        ensures cause { HasCause self.old.faults self.new.faults result }

        // As this one alone.
        ensures fails { IsErr result ↔ (Contains self.old.fails (self.old.calls + 1) ⊎ (length self.old.taken ≡ self.old.room)) }
        ensures count { IfOk result (λ n. n ≡ min self.old.piece (min (length piece.now) (self.old.room - length self.old.taken))) }
        ensures calls { self.new.calls ≡ raised self.old.calls }
        ensures faults { self.new.faults ≡ (if is_err result then raised self.old.faults else self.old.faults) }
        ensures piece { self.new.piece ≡ self.old.piece }
        ensures room { self.new.room ≡ self.old.room }
        ensures listed { self.new.fails ≡ self.old.fails }
    {
        let is_full = self.bytes.len() == self.room;
        if self.calls.is_next_failing() || is_full {
            return Err(count_fault(&mut self.calls.faults));
        }
        let count = self
            .piece
            .min(piece.len().min(self.room - self.bytes.len()));
        self.bytes.extend_from_slice(&piece[..count]).unwrap();
        Ok(count)
    }
}
