ghost use Rattle.std.specs.Prelude.{◌≡◌, ◌+◌, ◌<◌, ◌↔◌, [], Some, take, length, min, Contains, IsErr, is_err, IfOk, OnErr, if◌then◌else◌};
ghost use Rattle.std.specs.Io.{ReadsAtMost};
ghost use Rattle.std.specs.Io.KnownBytes.{ReadConsumes};
ghost use Rattle.sg_io.specs.Causes.{HasCause, raised};

use crate::calls::Calls;
use crate::sources::{Failed, Source, count_fault};
use std::marker::Model;

/// A source over bytes in memory, which fails at chosen reads.
///
/// A proof sees it as the bytes that are left, the most that a read moves, the numbers of the
/// reads that fail, and the counts of reads and faults. Reads take no memory.
#[derive(Debug, Drop)]
pub struct MemorySource {
    bytes: Vec<u8>,
    given: usize,
    piece: usize,
    calls: Calls,
}

impl Model for MemorySource {
    ghost use Rattle.std.specs.Prelude.{◌<◌, ◌≤◌, drop, vec_len};
    ghost use Rattle.sg_io.specs.Memory.{SourceState};

    ghost Value = { SourceState };

    ghost view = { λ s. record { left = drop s.given s.bytes.items; piece = s.piece; fails = s.calls.fails.items; calls = s.calls.made; faults = s.calls.faults } };

    ghost invariant = { λ s. (0 < s.piece) × (s.given ≤ vec_len s.bytes) };
}

impl MemorySource {
    /// A source that gives `bytes`, at most `piece` of them a read, and whose reads with the
    /// numbers in `fails` fail. The first read has the number 1.
    pub fn new(bytes: Vec<u8>, piece: usize, fails: Vec<u32>) -> MemorySource
        requires { 0 < piece }
        ensures { result ≡ record { left = bytes.items; piece = piece; fails = fails.items; calls = 0; faults = 0 } }
    {
        MemorySource {
            bytes,
            given: 0,
            piece,
            calls: Calls::new(fails),
        }
    }
}

impl Source for MemorySource {
    ghost left = { λ s. Some s.left };

    ghost faults = { λ s. s.faults };

    /// Fails exactly where its number is in `fails`, and else moves the least of the most that a
    /// read moves, the length of `into` and what is left. An `Err` leaves `into` as it was.
    fn read(&mut self, into: &mut [u8]) -> Result<usize, Failed>
        requires { 0 < length into.old }

        // As each source.
        ensures bound { ReadsAtMost result into.new }
        ensures bytes { ReadConsumes (Some self.old.left) (Some self.new.left) result into.new }
        ensures end { IfOk result (λ n. (n ≡ 0) ↔ (self.old.left ≡ [])) }
        ensures cause { HasCause self.old.faults self.new.faults result }

        // As this one alone.
        ensures fails { IsErr result ↔ Contains self.old.fails (self.old.calls + 1) }
        ensures count { IfOk result (λ n. n ≡ min self.old.piece (min (length into.old) (length self.old.left))) }
        ensures calls { self.new.calls ≡ raised self.old.calls }
        ensures faults { self.new.faults ≡ (if is_err result then raised self.old.faults else self.old.faults) }
        ensures untouched { OnErr result (into.new ≡ into.old) }
        ensures piece { self.new.piece ≡ self.old.piece }
        ensures listed { self.new.fails ≡ self.old.fails }
    {
        if self.calls.is_next_failing() {
            return Err(count_fault(&mut self.calls.faults));
        }
        let count = copy_front(&self.bytes.as_slice()[self.given..], into, self.piece);
        self.given += count;
        Ok(count)
    }
}

/// Copies the front of `from` to that of `into`, at most `most` bytes.
fn copy_front(from: &[u8], into: &mut [u8], most: usize) -> usize
    ensures count { result ≡ min most (min (length into.old) (length from.now)) }
    ensures bytes { take result into.new ≡ take result from.now }
{
    let count = most.min(into.len().min(from.len()));
    into[..count].copy_from_slice(&from[..count]);
    count
}
