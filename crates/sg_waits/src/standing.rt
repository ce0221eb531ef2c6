ghost use Rattle.std.specs.Prelude.{◌≡◌, ◌≢◌, ◌==◌, ◌||◌, ◌↔◌, ◌<◌, ◌≤◌, ℕ, false, [], slice_index_or, length, if◌then◌else◌};
ghost use Rattle.std.specs.List.{list_any};
ghost use Rattle.sg_modes.specs.Sessions.{IsSession, AreSessions, has_session};
ghost use Rattle.sg_modes.specs.Waits.{Wait, AreWaits, is_waiting, blockers_of, with_wait, waits_after, NoCycle, IsCycleSet};
ghost use Rattle.sg_waits.specs.Search.{Layer, Ahead, near_or_waiting};

use sg_modes::{Session, Sessions};
use std::marker::Model;

/// The waits that stand, at most one of each session, seen as a list by rising session.
///
/// A wait of a session names its blockers. It stands until the session ends or the first of the
/// blockers does. None of the calls takes memory.
#[derive(Debug, Drop)]
pub struct Waits {
    // for each session the blockers that its wait names; none where it doesn't wait
    named: [Sessions; 64],
}

impl Model for Waits {
    ghost use Rattle.std.specs.Prelude.{◌≡◌, List, length};
    ghost use Rattle.sg_modes.specs.Waits.{Wait};
    ghost use Rattle.sg_waits.specs.Standing.{standing, NamesOthers};

    ghost Value = { List Wait };

    ghost view = { λ w. standing w.named };

    ghost invariant = { λ w. (length w.named ≡ 64) × NamesOthers w.named 0 };
}

impl Waits {
    /// No waits.
    pub fn new() -> Waits
        ensures { result ≡ [] }
    {
        Waits {
            named: [Sessions::none(); 64],
        }
    }

    /// Adds the wait of the session for the blockers.
    pub fn add(&mut self, s: Session, blockers: Sessions)
        requires some { blockers ≢ [] }
        requires others { has_session blockers s ≡ false }
        requires none_stands { is_waiting self.old s ≡ false }
        ensures { self.new ≡ with_wait self.old (record { session = s; blockers = blockers }) }
    {
        self.named[s.index()] = blockers;
    }

    /// Ends the wait of the session, and every wait that names it.
    pub fn ended(&mut self, s: Session)
        ensures { self.new ≡ waits_after s self.old }
    {
        self.named[s.index()] = Sessions::none();
        forget(&mut self.named, s);
    }

    /// That the waits are by rising session, and each names others, for a proof that rests on it. It does nothing.
    #[inline(always)]
    pub fn in_order(&self)
        ensures { AreWaits self.now }
    {
        let _named = &self.named;
    }

    /// Whether a wait of the session stands.
    pub fn waits(&self, s: Session) -> bool
        ensures waits { result ≡ is_waiting self.now s }
        ensures standing { AreWaits self.now }
    {
        !self.blockers(s).is_empty()
    }

    /// The members of the cycle of the session, found by one search backwards from it; empty exactly
    /// where no chain of standing waits leads from the session back to itself.
    pub fn cycle(&self, s: Session) -> Sessions
        ensures cycle { IsCycleSet (blockers_of self.now) s result }
        ensures empty { (result ≡ []) ↔ NoCycle (blockers_of self.now) s }
        ensures sessions { AreSessions result }
    {
        let mut layers = [Sessions::none(); 64];
        let mut near = Sessions::none().with(s);
        let mut steps: usize = 0;
        let named = self.blockers(s);
        'search: while named.intersection(near).is_empty() {
            let wider = self.widen(near);
            if wider == near {
                return Sessions::none();
            }
            layers[steps] = near;
            near = wider;
            steps += 1;
        }
        layers[steps] = near;
        self.walk(s, steps, &layers)
    }

    /// For whom the session waits: the blockers that its standing wait names, or nobody.
    pub fn blockers(&self, s: Session) -> Sessions
        ensures blockers { result ≡ blockers_of self.now s }
        ensures session { IsSession s }
        ensures standing { AreWaits self.now }
    {
        self.named[s.index()]
    }

    // the sessions that are near, and those that wait for one of them
    fn widen(&self, near: Sessions) -> Sessions
        requires standing { AreWaits self.now }
        requires sessions { AreSessions near }
        ensures near { (x : ℕ) → has_session result x ≡ near_or_waiting (blockers_of self.now) near x }
        ensures sessions { AreSessions result }
    {
        let mut found = near;
        let mut rest = Sessions::all();
        while let Some(x) = rest.pop_first() {
            if !self.blockers(x).intersection(near).is_empty() {
                found = found.with(x);
            }
        }
        found
    }

    // the members from `s` on, where the nearest of those that it waits for is `steps` waits from it
    fn walk(&self, s: Session, steps: usize, layers: &[Sessions; 64]) -> Sessions
        requires session { IsSession s }
        requires few { steps < 64 }
        requires layers { (k : ℕ) → k ≤ steps → Layer (blockers_of self.now) s k (slice_index_or layers.now k []) }
        requires ahead { Ahead (blockers_of self.now) s s steps }
        ensures cycle { IsCycleSet (blockers_of self.now) s result }
        ensures sessions { AreSessions result }
    {
        let mut members = Sessions::none().with(s);
        let mut at = s;
        let mut left = steps;
        'steps: while left > 0 {
            let nearer = within(layers, left);
            let Some(next) = self.blockers(at).intersection(nearer).first() else {
                unreachable!()
            };
            members = members.with(next);
            at = next;
            left -= 1;
        }
        members
    }
}

// the sessions that are at most that many waits away
fn within(layers: &[Sessions; 64], steps: usize) -> Sessions
    requires { steps < 64 }
    ensures { result ≡ slice_index_or layers.now steps [] }
{
    layers[steps]
}

// ends the waits that name the session
fn forget(named: &mut [Sessions], s: Session)
    ensures length { length named.new ≡ length named.old }
    ensures each { (k : ℕ) → slice_index_or named.new k [] ≡ (if has_session (slice_index_or named.old k []) s then [] else slice_index_or named.old k []) }
{
    for blockers in named.iter_mut() {
        if blockers.has(s) {
            *blockers = Sessions::none();
        }
    }
}
