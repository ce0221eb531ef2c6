ghost use Rattle.std.specs.Prelude.{◌≡◌, ◌≢◌, ◌==◌, ◌↔◌, ◌⊎◌, ◌<ℤ◌, ◌≤◌, ℕ, [], IsTrue, if◌then◌else◌};
ghost use Rattle.sg_modes.specs.Victims.{IsVictim};
ghost use Rattle.sg_waits.specs.Ranks.{rank_of, no_rank};

use sg_modes::{Session, Sessions};
use std::marker::Model;

/// What decides which member of a cycle is rolled back.
#[derive(Clone, Copy, PartialEq, Eq, Debug)]
pub struct Rank {
    /// The session's priority: the lowest gives way.
    pub priority: i8,
    /// How many keys it has written: of equal priorities the least cost gives way.
    pub cost: u64,
}

impl Rank {
    // a lower priority, or the same and a cost that is no greater
    fn is_at_most(self, other: Rank) -> bool
        ensures { IsTrue result ↔ (self.priority <ℤ other.priority) ⊎ ((self.priority ≡ other.priority) × (self.cost ≤ other.cost)) }
    {
        self.priority < other.priority
            || (self.priority == other.priority && self.cost <= other.cost)
    }
}

/// A rank of each session.
#[derive(Clone, Copy, Debug)]
pub struct Ranks {
    by_session: [Rank; 64],
}

impl Model for Ranks {
    ghost use Rattle.std.specs.Prelude.{List};
    ghost use Rattle.sg_waits.specs.declared.ranks.Rank.{Rank};

    ghost Value = { List Rank };

    ghost view = { λ r. r.by_session };

    ghost inverse = { λ rs. record { by_session = rs } };
}

impl Ranks {
    /// Priority 0 and cost 0 for every session.
    pub fn new() -> Ranks
        ensures { (u : ℕ) → rank_of result u ≡ no_rank }
    {
        let rank = Rank {
            priority: 0,
            cost: 0,
        };
        Ranks {
            by_session: [rank; 64],
        }
    }

    /// Changes the rank of the session, and leaves the others.
    pub fn set(&mut self, s: Session, rank: Rank)
        ensures { (u : ℕ) → rank_of self.new u ≡ (if u == s then rank else rank_of self.old u) }
    {
        self.by_session[s.index()] = rank;
    }

    /// The rank of the session.
    pub fn of(&self, s: Session) -> Rank
        ensures { result ≡ rank_of self.now s }
    {
        self.by_session[s.index()]
    }
}

/// The member of the cycle that is rolled back: of the lowest priority, of these of the least cost,
/// of these of the greatest number.
pub fn victim(cycle: Sessions, ranks: &Ranks) -> Session
    requires { cycle ≢ [] }
    ensures { IsVictim (λ u. (rank_of ranks.now u).priority) (λ u. (rank_of ranks.now u).cost) cycle result }
{
    let mut rest = cycle;
    let Some(first) = rest.pop_first() else {
        unreachable!()
    };
    let mut chosen = first;
    while let Some(s) = rest.pop_first() {
        if ranks.of(s).is_at_most(ranks.of(chosen)) {
            chosen = s;
        }
    }
    chosen
}
