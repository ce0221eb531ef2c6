ghost use Rattle.std.specs.Prelude.{◌≡◌, ◌+◌, ◌<◌};
ghost use Rattle.std.specs.Option.{SomeIff};
ghost use Rattle.sg_modes.specs.Sessions.{IsSession};

use std::marker::Model;

/// A session, by its number from 1 to 64.
#[derive(Clone, Copy, PartialEq, Eq, PartialOrd, Ord, Debug)]
pub struct Session {
    number: u8,
}

impl Model for Session {
    ghost use Rattle.std.specs.Prelude.{ℕ};
    ghost use Rattle.sg_modes.specs.Sessions.{IsSession};

    ghost Value = { ℕ };

    ghost view = { λ s. s.number };

    ghost invariant = { λ s. IsSession s.number };

    ghost inverse = { λ n. record { number = n } };
}

impl Session {
    /// The session of that number; none exactly where the number isn't from 1 to 64.
    pub fn new(number: u8) -> Option<Session>
        ensures { SomeIff result (IsSession number) number }
    {
        if 1 <= number && number <= 64 {
            Some(Session { number })
        } else {
            None
        }
    }

    /// That the number is from 1 to 64, for a proof that rests on it. It does nothing.
    #[inline(always)]
    pub fn in_range(&self)
        ensures { IsSession self.now }
    {
        let _number = &self.number;
    }

    /// The number, from 1 to 64.
    pub fn number(&self) -> u8
        ensures number { result ≡ self.now }
        ensures range { IsSession self.now }
    {
        self.number
    }

    /// The place of the session in a list of all sessions, from 0 to 63.
    pub fn index(&self) -> usize
        ensures place { result + 1 ≡ self.now }
        ensures below { result < 64 }
    {
        self.number as usize - 1
    }
}
