ghost use Rattle.std.specs.Prelude.{◌≡◌, ◌↔◌, ℕ, true, [], ◌++◌, IsTrue, filter, slice_get};
ghost use Rattle.std.specs.Option.{option_to_list};
ghost use Rattle.sg_modes.specs.Sessions.{IsSession, AreSessions, has_session, with_session, without_session};

use crate::numbers::Session;
use std::marker::Model;

/// A set of sessions, seen as the list of their numbers, rising.
#[derive(Clone, Copy, PartialEq, Eq, Debug)]
pub struct Sessions {
    bits: u64,
}

impl Model for Sessions {
    ghost use Rattle.std.specs.Prelude.{◌≡◌, ℕ, List, ◌<◌, ◌^◌};
    ghost use Rattle.sg_modes.specs.Words.{members, word_of};

    ghost Value = { List ℕ };

    ghost view = { λ s. members s.bits };

    ghost invariant = { λ s. (s.bits < 2 ^ 64) × (word_of (members s.bits) ≡ s.bits) };

    ghost inverse = { λ ns. record { bits = word_of ns } };

    ghost inverse_ok = { λ s h i. record { bits = h.1 i } };
}

impl Sessions {
    /// The empty set.
    pub fn none() -> Sessions
        ensures { result ≡ [] }
    {
        Sessions { bits: 0 }
    }

    /// The set of all sessions.
    pub fn all() -> Sessions
        ensures all { (n : ℕ) → IsSession n → has_session result n ≡ true }
        ensures sessions { AreSessions result }
    {
        Sessions { bits: u64::MAX }
    }

    /// That all members are sessions, for a proof that rests on it. It does nothing.
    #[inline(always)]
    pub fn all_sessions(&self)
        ensures { AreSessions self.now }
    {
        let _bits = &self.bits;
    }

    /// Whether the session is in the set.
    pub fn has(&self, s: Session) -> bool
        ensures has { result ≡ has_session self.now s }
        ensures sessions { AreSessions self.now }
    {
        self.bits & (1u64 << (s.number() - 1)) != 0
    }

    /// The set with the session too.
    pub fn with(&self, s: Session) -> Sessions
        ensures { result ≡ with_session self.now s }
    {
        Sessions {
            bits: self.bits | (1u64 << (s.number() - 1)),
        }
    }

    /// The set without the session.
    pub fn without(&self, s: Session) -> Sessions
        ensures { result ≡ without_session self.now s }
    {
        Sessions {
            bits: self.bits & !(1u64 << (s.number() - 1)),
        }
    }

    /// The sessions that are in both sets.
    pub fn intersection(&self, other: Sessions) -> Sessions
        ensures { result ≡ filter (λ n. has_session other n) self.now }
    {
        Sessions {
            bits: self.bits & other.bits,
        }
    }

    /// Whether no session is in the set.
    pub fn is_empty(&self) -> bool
        ensures empty { IsTrue result ↔ (self.now ≡ []) }
        ensures sessions { AreSessions self.now }
    {
        self.bits == 0
    }

    /// The session of the least number; none exactly where the set is empty.
    pub fn first(&self) -> Option<Session>
        ensures first { result ≡ slice_get self.now 0 }
        ensures sessions { AreSessions self.now }
    {
        Session::new(self.bits.trailing_zeros() as u8 + 1)
    }

    /// Takes the session of the least number out of the set; none exactly where it is empty.
    /// Called until then it gives the sessions by rising number.
    pub fn pop_first(&mut self) -> Option<Session>
        ensures first { result ≡ slice_get self.old 0 }
        ensures rest { self.old ≡ option_to_list result ++ self.new }
        ensures sessions { AreSessions self.old }
    {
        let first = self.first()?;
        *self = self.without(first);
        Some(first)
    }
}

#[cfg(test)]
mod tests {
    use super::Sessions;
    use crate::numbers::Session;
    use std::test::Fail;

    #[test]
    fn numbers(rt: HostRuntime) -> Result<(), Fail> {
        assert_eq!(rt; Session::new(0), None);
        assert_eq!(rt; Session::new(65), None);
        for number in [1, 2, 63, 64] {
            let s = Session::new(number).ok_or("a session")?;
            assert_eq!(rt; s.number(), number);
        }
        Ok(())
    }

    #[test]
    fn members(rt: HostRuntime) -> Result<(), Fail> {
        let first = Session::new(1).ok_or("a session")?;
        let second = Session::new(7).ok_or("a session")?;
        let last = Session::new(64).ok_or("a session")?;
        let set = Sessions::none().with(last).with(second).with(first);
        assert!(rt; set.has(first) && set.has(second) && set.has(last));
        let mut rest = set.without(second);
        assert!(rt; !rest.has(second) && rest.has(last));
        assert_eq!(rt; rest.first(), Some(first));
        assert_eq!(rt; rest.pop_first(), Some(first));
        assert_eq!(rt; rest.pop_first(), Some(last));
        assert_eq!(rt; rest.pop_first(), None);
        assert!(rt; rest.is_empty() && !set.is_empty());
        assert!(rt; Sessions::all().has(first) && Sessions::all().has(last));
        let both = set.intersection(Sessions::none().with(second).with(last));
        assert_eq!(rt; both, set.without(first));
        assert_eq!(rt; rest, Sessions::none());
        Ok(())
    }
}
