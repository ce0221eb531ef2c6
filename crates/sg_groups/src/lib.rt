//! Pairs of a group and an item: all items of a group are found from the group alone.
//!
//! Room for pairs is reserved before it is needed, so that putting one in can't fail.
#![tactic(auto)]

ghost use Rattle.std.specs.Prelude.{◌≡◌, ◌+◌, ◌≤◌, [], ◌||◌, ◌&&◌, not, true, false, length, find, slice_get, IfSome, IfNone, OnOk, IsOk, IsTrue};
ghost use Rattle.std.specs.Ordering.{is_eq};
ghost use Rattle.sg_groups.specs.Groups.{pair_cmp, HasRisingPairs, has_pair, items_of, is_item_above, item_in};

use sg_pages::Pages;
use std::alloc::{AllocError, Global};
use std::cmp::Ordering;
use std::marker::Model;

/// Pairs of a group and an item, each once, by rising group and, within one, by rising item; and
/// room for more.
///
/// Groups and items are told apart by their orders alone. A call compares a logarithmic number of
/// pairs.
// `None` as an item stands for the place before the group's first.
#[derive(Drop)]
pub struct Groups<A: Ord + Copy, B: Ord + Copy> {
    entries: Pages<(A, Option<B>), ()>,
}

impl<A: Ord + Copy, B: Ord + Copy> Model for Groups<A, B> {
    ghost use Rattle.sg_groups.specs.Groups.{Grouped, grouped_code, pairs_of, HasRisingEntries};

    ghost Value = { Grouped A B };

    ghost coded = { grouped_code A.code B.code };

    ghost view = { λ it. record { pairs = pairs_of it.entries.pairs; spare = it.entries.spare } };

    ghost invariant = { λ it. HasRisingEntries A.cmp B.cmp it.entries.pairs };
}

impl<A: Ord + Copy, B: Ord + Copy> Groups<A, B> {
    /// No pairs and no room. It takes no memory, and keeps the allocator for `reserve`.
    pub fn new(alloc: Global) -> Groups<A, B>
        ensures pairs { result.pairs ≡ [] }
        ensures spare { result.spare ≡ 0 }
    {
        Groups {
            entries: Pages::new(alloc),
        }
    }

    /// For how many new pairs there is room.
    pub fn spare(&self) -> usize
        ensures { result ≡ self.now.spare }
    {
        self.entries.spare()
    }

    /// Makes room for at least `more` new pairs. `AllocError` is want of memory, and never comes where
    /// there is as much room. The pairs stay as they were in either case, and no room is lost.
    pub fn reserve(&mut self, more: usize) -> Result<(), AllocError>
        ensures pairs { self.new.pairs ≡ self.old.pairs }
        ensures spare { OnOk result (more ≤ self.new.spare) }
        ensures kept { self.old.spare ≤ self.new.spare }
        ensures there { more ≤ self.old.spare → IsOk result }
        ensures rising { HasRisingPairs A.cmp B.cmp self.new.pairs }
    {
        self.entries.reserve(more)
    }

    /// Whether the pair is there.
    pub fn contains(&self, group: &A, item: &B) -> bool
        ensures found { result ≡ has_pair A.cmp B.cmp self.now.pairs group.now item.now }
        ensures rising { HasRisingPairs A.cmp B.cmp self.now.pairs }
    {
        self.entries.get(&(*group, Some(*item))).is_some()
    }

    /// The first item of the group, `None` exactly where the group has none.
    pub fn first(&self, group: &A) -> Option<B>
        ensures first { result ≡ slice_get (items_of A.cmp group.now self.now.pairs) 0 }
        ensures there { IfSome result (λ item. has_pair A.cmp B.cmp self.now.pairs group.now item ≡ true) }
        ensures none { IfNone result ((b : B) → has_pair A.cmp B.cmp self.now.pairs group.now b ≡ false) }
    {
        self.next(group, None)
    }

    /// The first item of the group that is above this one, or of all where there is none.
    pub fn next(&self, group: &A, other: Option<B>) -> Option<B>
        ensures first { result ≡ find (is_item_above B.cmp other) (items_of A.cmp group.now self.now.pairs) }
        ensures rising { HasRisingPairs A.cmp B.cmp self.now.pairs }
    {
        match self.entries.after(&(*group, other)) {
            None => None,
            Some((entry, _)) => item_in(group, entry),
        }
    }

    /// Puts the pair in. It takes no memory, and uses up at most one unit of spare.
    pub fn insert_reserved(&mut self, group: A, item: B)
        requires { 1 ≤ self.old.spare }
        ensures pairs { (a : A) (b : B) → has_pair A.cmp B.cmp self.new.pairs a b ≡ (is_eq (pair_cmp A.cmp B.cmp (a, b) (group, item)) || has_pair A.cmp B.cmp self.old.pairs a b) }
        ensures spare { self.old.spare ≤ self.new.spare + 1 }
        ensures rising { HasRisingPairs A.cmp B.cmp self.new.pairs }
    {
        self.entries.insert_reserved((group, Some(item)), ());
    }

    /// Takes the pair out where it is there, which leaves room for another. It takes no memory.
    pub fn remove(&mut self, group: &A, item: &B)
        ensures pairs { (a : A) (b : B) → has_pair A.cmp B.cmp self.new.pairs a b ≡ (not (is_eq (pair_cmp A.cmp B.cmp (a, b) (group.now, item.now))) && has_pair A.cmp B.cmp self.old.pairs a b) }
        ensures shorter { has_pair A.cmp B.cmp self.old.pairs group.now item.now ≡ true → length self.new.pairs + 1 ≡ length self.old.pairs }
        ensures spare { self.old.spare ≤ self.new.spare }
        ensures freed { has_pair A.cmp B.cmp self.old.pairs group.now item.now ≡ true → self.old.spare + 1 ≤ self.new.spare }
        ensures rising { HasRisingPairs A.cmp B.cmp self.new.pairs }
    {
        self.entries.remove(&(*group, Some(*item)));
    }
}

// The entry's item, if it is of this group.
fn item_in<A: Ord, B: Copy>(group: &A, entry: &(A, Option<B>)) -> Option<B>
    ensures { result ≡ item_in A.cmp group.now entry.now }
{
    if group.cmp(&entry.0).is_eq() {
        entry.1
    } else {
        None
    }
}

#[cfg(test)]
mod tests;
