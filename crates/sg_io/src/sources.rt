ghost use Rattle.std.specs.Prelude.{◌≡◌, ◌<◌, ◌≤◌, ◌↔◌, ℕ, List, [], Option, length, IfOk, IfSome};
ghost use Rattle.std.specs.Io.{ReadsAtMost};
ghost use Rattle.std.specs.Io.KnownBytes.{ReadConsumes};
ghost use Rattle.sg_io.specs.Causes.{HasCause, raised};

use thiserror::Error;

/// A read or a write failed. It moved no byte, and the object that failed has counted a fault.
#[derive(Clone, Copy, Debug, PartialEq, Eq, Error)]
#[error("the object failed")]
pub struct Failed;

/// Gives bytes in order, a piece at a time.
pub trait Source {
    /// The bytes that are left to read, where the source tells them.
    ghost left: { Self → Option (List ℕ) };

    /// How often the source has failed. It never falls. At 2^64 - 1, the last value of a counter
    /// of 64 bits, it stays, and is then said to rise at each further fault.
    ghost faults: { Self → ℕ };

    /// Moves the next bytes to the front of `into`, and answers how many: at least one, unless
    /// nothing is left.
    ///
    /// At an `Err` nothing was moved: what is left is as before.
    fn read(&mut self, into: &mut [u8]) -> Result<usize, Failed>
        requires { 0 < length into.old }
        ensures bound { ReadsAtMost result into.new }
        ensures bytes { ReadConsumes (left self.old) (left self.new) result into.new }
        ensures end { IfSome (left self.old) (λ bytes. IfOk result (λ n. (n ≡ 0) ↔ (bytes ≡ []))) }
        ensures cause { HasCause (faults self.old) (faults self.new) result };
}

/// Counts a fault, and gives the answer that says so.
pub(crate) fn count_fault(faults: &mut u64) -> Failed
    ensures count { faults.new ≡ raised faults.old }
    ensures later { faults.old ≤ faults.new }
{
    *faults = faults.saturating_add(1);
    Failed
}
