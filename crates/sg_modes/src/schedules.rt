ghost use Rattle.std.specs.Prelude.{◌≡◌, ◌↔◌, [], ◌∷◌, ◌++◌, length, slice_get, IsTrue, OnOk, OnErr};

use crate::numbers::Session;
use std::alloc::{AllocError, Global};
use std::marker::Model;

/// The sessions whose turns come one after another.
#[derive(Debug, Drop)]
pub struct Schedule {
    turns: Vec<Session>,
}

impl Model for Schedule {
    ghost use Rattle.std.specs.Prelude.{ℕ, List};

    ghost Value = { List ℕ };

    ghost view = { λ s. s.turns.items };
}

impl Schedule {
    /// A schedule of no turns. It takes no memory.
    pub fn new(alloc: Global) -> Schedule
        ensures { result ≡ [] }
    {
        Schedule {
            turns: Vec::new(alloc),
        }
    }

    /// Puts a turn of the session last. Where memory is wanting the schedule is as before.
    pub fn push(&mut self, s: Session) -> Result<(), AllocError>
        ensures ok { OnOk result (self.new ≡ self.old ++ s ∷ []) }
        ensures err { OnErr result (self.new ≡ self.old) }
    {
        self.turns.push(s)?;
        Ok(())
    }

    /// How many turns there are.
    pub fn len(&self) -> usize
        ensures { result ≡ length self.now }
    {
        self.turns.len()
    }

    /// Whether there is no turn.
    pub fn is_empty(&self) -> bool
        ensures { IsTrue result ↔ (self.now ≡ []) }
    {
        self.turns.is_empty()
    }

    /// The session whose turn has that place, counted from 0; none exactly past the last turn.
    pub fn at(&self, place: usize) -> Option<Session>
        ensures { result ≡ slice_get self.now place }
    {
        self.turns.get(place).copied()
    }
}

#[cfg(test)]
mod tests {
    use super::Schedule;
    use crate::numbers::Session;
    use crate::priorities::Priorities;
    use std::test::Fail;

    #[test]
    fn turns(rt: HostRuntime) -> Result<(), Fail> {
        let first = Session::new(1).ok_or("a session")?;
        let third = Session::new(3).ok_or("a session")?;
        let mut schedule = Schedule::new(rt.alloc());
        assert!(rt; schedule.is_empty());
        schedule.push(third)?;
        schedule.push(first)?;
        schedule.push(third)?;
        assert_eq!(rt; schedule.len(), 3);
        assert_eq!(rt; schedule.at(0), Some(third));
        assert_eq!(rt; schedule.at(1), Some(first));
        assert_eq!(rt; schedule.at(3), None);
        Ok(())
    }

    #[test]
    fn priorities(rt: HostRuntime) -> Result<(), Fail> {
        let first = Session::new(1).ok_or("a session")?;
        let last = Session::new(64).ok_or("a session")?;
        let priorities = Priorities::new()
            .with(last, 10)
            .with(first, -10)
            .with(last, -3);
        assert_eq!(rt; priorities.of(first), -10);
        assert_eq!(rt; priorities.of(last), -3);
        assert_eq!(rt; Priorities::new().of(first), 0);
        assert_eq!(rt; first.index(), 0);
        assert_eq!(rt; last.index(), 63);
        Ok(())
    }
}
