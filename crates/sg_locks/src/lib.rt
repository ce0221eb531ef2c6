//! Which session holds which key in which mode.
//!
//! A lock table has grants, each of a session, a key and a mode, and a number, spare: for how many
//! new grants there is room. Memory is taken by `reserve` alone.
#![tactic(auto)]

ghost use Rattle.std.specs.Prelude.{◌≡◌, ◌+◌, ◌≤◌, [], ◌&&◌, ℕ, false, not, eqb, IsOk, OnOk};
ghost use Rattle.sg_modes.specs.Modes.{is_compatible};
ghost use Rattle.sg_modes.specs.Sessions.{has_session};
ghost use Rattle.sg_locks.specs.Grants.{has_grant, has_range, blocks, HasRisingGrants, IsUnblocked, AddsGrant, RemovesSession};

use sg_groups::Groups;
use sg_modes::{Mode, Session, Sessions, compatible};
use std::alloc::{AllocError, Global};
use std::marker::Model;

/// A lock table: which session holds which key in which mode, each grant once.
///
/// It is seen as the list of its grants in the order of their keys, then of their sessions and then
/// of their modes, so that tables with the same grants are equal. Keys are told apart by their
/// order alone.
///
/// A call that asks about one key compares a logarithmic number of grants, and those on the key,
/// which are at most one for each session and mode.
#[derive(Drop)]
pub struct Locks<K: Ord + Copy> {
    by_key: Groups<K, (Session, Mode)>,
    by_session: Groups<Session, (K, Mode)>,
}

impl<K: Ord + Copy> Model for Locks<K> {
    ghost use Rattle.std.specs.Prelude.{min};
    ghost use Rattle.sg_locks.specs.Grants.{Granted, granted_code};
    ghost use Rattle.sg_locks.specs.Mirrors.{grants_on, IsLockTable};

    ghost Value = { Granted K };

    ghost coded = { granted_code K.code };

    ghost view = { λ it. record { grants = grants_on it.by_key.pairs; spare = min it.by_key.spare it.by_session.spare } };

    ghost invariant = { λ it. IsLockTable K.cmp it.by_key.pairs it.by_session.pairs };
}

impl<K: Ord + Copy> Locks<K> {
    /// A table without grants and without room. It takes no memory, and keeps the allocator for
    /// `reserve`.
    pub fn new(alloc: Global) -> Locks<K>
        ensures grants { result.grants ≡ [] }
        ensures spare { result.spare ≡ 0 }
    {
        Locks {
            by_key: Groups::new(alloc),
            by_session: Groups::new(alloc),
        }
    }

    /// Makes room for at least `more` new grants, so that as many need no memory.
    ///
    /// `AllocError` is want of memory, and never comes where there is as much room. The grants stay as
    /// they were in either case, and no room that was there is lost.
    pub fn reserve(&mut self, more: usize) -> Result<(), AllocError>
        ensures grants { self.new.grants ≡ self.old.grants }
        ensures spare { OnOk result (more ≤ self.new.spare) }
        ensures kept { self.old.spare ≤ self.new.spare }
        ensures there { more ≤ self.old.spare → IsOk result }
        ensures rising { HasRisingGrants K.cmp self.new.grants }
    {
        self.by_key.reserve(more)?;
        self.by_session.reserve(more)
    }

    /// Whether the session holds the key in the mode.
    pub fn holds(&self, s: Session, key: &K, mode: Mode) -> bool
        ensures holds { result ≡ has_grant K.cmp self.now.grants s key.now mode }
        ensures rising { HasRisingGrants K.cmp self.now.grants }
    {
        self.by_key.contains(key, &(s, mode))
    }

    /// Whether the session holds the key in a mode that locks the gap below it too: in RangeS-S,
    /// RangeS-U or RangeX-X.
    pub fn holds_range(&self, s: Session, key: &K) -> bool
        ensures holds { result ≡ has_range K.cmp self.now.grants s key.now }
        ensures rising { HasRisingGrants K.cmp self.now.grants }
    {
        self.holds(s, key, Mode::RangeSS)
            || self.holds(s, key, Mode::RangeSU)
            || self.holds(s, key, Mode::RangeXX)
    }

    /// The other sessions that hold the key in a mode that doesn't go with the one asked for.
    pub fn blockers(&self, s: Session, key: &K, mode: Mode) -> Sessions
        ensures blockers { (n : ℕ) → has_session result n ≡ blocks K.cmp self.now.grants s key.now mode n }
        ensures rising { HasRisingGrants K.cmp self.now.grants }
    {
        let mut blockers = Sessions::none();
        let mut last = None;
        while let Some(found) = self.by_key.next(key, last) {
            let (holder, held) = found;
            if is_in_the_way(s, mode, holder, held) {
                blockers = blockers.with(holder);
            }
            last = Some(found);
        }
        blockers
    }

    /// Gives the key to the session in the mode. It takes no memory, and uses up at most one unit
    /// of spare.
    pub fn grant_reserved(&mut self, s: Session, key: K, mode: Mode)
        requires room { 1 ≤ self.old.spare }
        requires unblocked { IsUnblocked K.cmp self.old.grants s key mode }
        requires not_held { has_grant K.cmp self.old.grants s key mode ≡ false }
        ensures grants { AddsGrant K.cmp self.old.grants self.new.grants (record { session = s; key = key; mode = mode }) }
        ensures spare { self.old.spare ≤ self.new.spare + 1 }
        ensures rising { HasRisingGrants K.cmp self.new.grants }
    {
        self.by_key.insert_reserved(key, (s, mode));
        self.by_session.insert_reserved(s, (key, mode));
    }

    /// Takes back all that the session holds. It takes no memory, and no room is lost.
    ///
    /// It costs what the session holds times a logarithm, however large the table is.
    pub fn release_all(&mut self, s: Session)
        ensures grants { RemovesSession K.cmp self.old.grants self.new.grants s }
        ensures spare { self.old.spare ≤ self.new.spare }
        ensures rising { HasRisingGrants K.cmp self.new.grants }
    {
        while let Some(found) = self.by_session.next(&s, None) {
            let (key, mode) = found;
            self.by_session.remove(&s, &found);
            self.by_key.remove(&key, &(s, mode));
        }
    }
}

// Whether what the holder holds keeps s from having the mode.
fn is_in_the_way(s: Session, mode: Mode, holder: Session, held: Mode) -> bool
    ensures { result ≡ (not (eqb holder s) && not (is_compatible held mode)) }
{
    holder != s && !compatible(held, mode)
}

#[cfg(test)]
mod tests;
