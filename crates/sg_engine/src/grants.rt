ghost use Rattle.std.specs.Prelude.{◌≡◌, ◌+◌, ◌<◌, ◌^◌, [], ◌∷◌, OnOk, OnErr, IfSome};
ghost use Rattle.sg_trace.specs.Traces.{Take};
ghost use Rattle.sg_trace.specs.Legal.{Takes};
ghost use Rattle.sg_engine.specs.Shown.{Appends};
ghost use Rattle.sg_engine.specs.Nexts.{IsNextAct, IsFree, counted, cost_with};

use crate::shared::{Seat, Shared};
use sg_cells::Key;
use sg_modes::{Mode, Session};
use sg_trace::Label;
use std::alloc::AllocError;

impl Shared {
    /// Takes the lock that the session's open statement asks for next, where nobody is in its way. `AllocError` is want
    /// of memory; nothing has changed then.
    pub(crate) fn take(&mut self, s: Session, key: Key, mode: Mode) -> Result<(), AllocError>
        requires next { IsNextAct self.old s (Takes key mode) }
        requires free { IsFree self.old s key mode }
        ensures ok { OnOk result (Appends (Take s key mode ∷ []) self.old self.new) }
        ensures jobs { self.new.jobs ≡ self.old.jobs }
        ensures err { OnErr result (self.new ≡ self.old) }
    {
        s.in_range();
        let _free = self.locks.blockers(s, &key, mode).is_empty();
        self.trace.reserve(self.live + 1)?;
        self.locks.reserve(1)?;
        self.trace.countable();
        count(&mut self.seats[s.index()], mode);
        self.locks.grant_reserved(s, key, mode);
        self.trace.push_reserved(Label::Take {
            session: s,
            key,
            mode,
        });
        Ok(())
    }
}

/// Counts a key that is granted, where it is to be written.
fn count(seat: &mut Seat, mode: Mode)
    requires { IfSome seat.old.running (λ r. r.cost + 1 < 2 ^ 64) }
    ensures { seat.new ≡ counted mode seat.old }
{
    if let Some(running) = &mut seat.running {
        running.cost += cost_of(mode);
    }
}

/// What a key costs that is held in this mode.
pub(crate) fn cost_of(mode: Mode) -> u64
    ensures { result ≡ cost_with mode 0 }
{
    match mode {
        Mode::X | Mode::RangeXX => 1,
        _ => 0,
    }
}
