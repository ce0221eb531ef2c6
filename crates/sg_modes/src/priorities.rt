ghost use Rattle.std.specs.Prelude.{◌≡◌, ◌==◌, ℕ, pos, if◌then◌else◌};
ghost use Rattle.sg_modes.specs.Priorities.{IsPriority, ArePriorities, priority_of};

use crate::numbers::Session;
use std::marker::Model;

/// A priority of each session, from -10 to 10.
#[derive(Clone, Copy, Debug)]
pub struct Priorities {
    by_session: [i8; 64],
}

impl Model for Priorities {
    ghost use Rattle.std.specs.Prelude.{ℤ, List};
    ghost use Rattle.sg_modes.specs.Priorities.{ArePriorities};

    ghost Value = { List ℤ };

    ghost view = { λ p. p.by_session };

    ghost invariant = { λ p. ArePriorities p.by_session };

    ghost inverse = { λ ps. record { by_session = ps } };
}

impl Priorities {
    /// Priority 0 for every session.
    pub fn new() -> Priorities
        ensures { (u : ℕ) → priority_of result u ≡ pos 0 }
    {
        Priorities {
            by_session: [0; 64],
        }
    }

    /// That all of them are from -10 to 10, for a proof that rests on it. It does nothing.
    #[inline(always)]
    pub fn in_range(&self)
        ensures { ArePriorities self.now }
    {
        let _by_session = &self.by_session;
    }

    /// The priority of the session.
    pub fn of(&self, s: Session) -> i8
        ensures priority { result ≡ priority_of self.now s }
        ensures range { IsPriority result }
        ensures all { ArePriorities self.now }
    {
        self.by_session[s.index()]
    }

    /// The priorities with that of the session changed, and the others as before.
    pub fn with(mut self, s: Session, priority: i8) -> Priorities
        requires { IsPriority priority }
        ensures { (u : ℕ) → priority_of result u ≡ (if u == s then priority else priority_of self u) }
    {
        self.by_session[s.index()] = priority;
        self
    }
}
