ghost use Rattle.std.specs.Prelude.{ℕ, ◌<◌, ◌≤◌, List, Option, length, IfOk};
ghost use Rattle.std.specs.Io.KnownBytes.{WriteAppends};
ghost use Rattle.sg_io.specs.Causes.{HasCause};

use crate::sources::Failed;

/// Takes bytes in order, a piece at a time.
pub trait Sink {
    /// The bytes that the sink has taken, where it tells them.
    ghost taken: { Self → Option (List ℕ) };

    /// How often the sink has failed, counted as the faults of a source are.
    ghost faults: { Self → ℕ };

    /// Takes the first bytes of `piece`, and answers how many: at least one.
    ///
    /// At an `Err` nothing was taken: what the sink has taken is as before.
    fn write(&mut self, piece: &[u8]) -> Result<usize, Failed>
        requires { 0 < length piece.now }
        ensures some { IfOk result (λ n. 0 < n) }
        ensures bound { IfOk result (λ n. n ≤ length piece.now) }
        ensures bytes { WriteAppends (taken self.old) (taken self.new) result piece.now }
        ensures cause { HasCause (faults self.old) (faults self.new) result };
}
