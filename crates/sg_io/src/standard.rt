ghost use Rattle.std.specs.Prelude.{◌≡◌, ◌<◌, ◌≤◌, None, length, IfOk, is_err, if◌then◌else◌};
ghost use Rattle.std.specs.Io.{ReadsAtMost};
ghost use Rattle.std.specs.Io.KnownBytes.{ReadConsumes, WriteAppends};
ghost use Rattle.sg_io.specs.Causes.{HasCause, raised};

use crate::sinks::Sink;
use crate::sources::{Failed, Source, count_fault};
use std::io::{Read, Write};
use std::marker::Model;

/// A source over a reader of std. It tells no bytes.
#[derive(Debug, Drop)]
pub struct StdSource<I> {
    input: I,
    faults: u64,
}

impl<I> Model for StdSource<I> {
    ghost use Rattle.sg_io.specs.Standard.{Counted};

    ghost Value = { Counted I };

    ghost view = { λ s. record { inner = s.input; faults = s.faults } };
}

impl<I: Read> StdSource<I> {
    /// A source that has not failed yet.
    pub fn new(input: I) -> StdSource<I>
        ensures { result ≡ record { inner = input; faults = 0 } }
    {
        StdSource { input, faults: 0 }
    }
}

impl<I: Read> Source for StdSource<I> {
    ghost left = { λ s. None };

    ghost faults = { λ s. s.faults };

    /// One read of the reader. Each error of its is a fault, an interruption too.
    fn read(&mut self, into: &mut [u8]) -> Result<usize, Failed>
        requires { 0 < length into.old }

        // As each source. It tells no bytes, so `bytes` and `end` of a source say nothing of it.
        ensures bound { ReadsAtMost result into.new }
        ensures cause { HasCause self.old.faults self.new.faults result }

        // What the reader did, where it tells its bytes.
        ensures passes { ReadConsumes (I.remaining self.old.inner) (I.remaining self.new.inner) result into.new }
        ensures faults { self.new.faults ≡ (if is_err result then raised self.old.faults else self.old.faults) }
    {
        match self.input.read(into) {
            Ok(count) => Ok(count),
            Err(_) => Err(count_fault(&mut self.faults)),
        }
    }
}

/// A sink over a writer of std. It tells no bytes.
#[derive(Debug, Drop)]
pub struct StdSink<W> {
    output: W,
    faults: u64,
}

impl<W> Model for StdSink<W> {
    ghost use Rattle.sg_io.specs.Standard.{Counted};

    ghost Value = { Counted W };

    ghost view = { λ s. record { inner = s.output; faults = s.faults } };
}

impl<W: Write> StdSink<W> {
    /// A sink that has not failed yet.
    pub fn new(output: W) -> StdSink<W>
        ensures { result ≡ record { inner = output; faults = 0 } }
    {
        StdSink { output, faults: 0 }
    }
}

impl<W: Write> Sink for StdSink<W> {
    ghost taken = { λ s. None };

    ghost faults = { λ s. s.faults };

    /// One write of the writer. Each error of its is a fault, and so is a write that takes nothing.
    fn write(&mut self, piece: &[u8]) -> Result<usize, Failed>
        requires { 0 < length piece.now }

        // As each sink. It tells no bytes, so `bytes` of a sink says nothing of it.
        ensures some { IfOk result (λ n. 0 < n) }
        ensures bound { IfOk result (λ n. n ≤ length piece.now) }
        ensures cause { HasCause self.old.faults self.new.faults result }

        // What the writer did, where it tells its bytes.
        ensures passes { WriteAppends (W.contents self.old.inner) (W.contents self.new.inner) result piece.now }
        ensures faults { self.new.faults ≡ (if is_err result then raised self.old.faults else self.old.faults) }
    {
        match self.output.write(piece) {
            Ok(count) if count > 0 => Ok(count),
            _ => Err(count_fault(&mut self.faults)),
        }
    }
}
