//! A store of pairs in the order of their keys, with room reserved before it is needed.
//!
//! A store has pairs of a key and a value with rising keys, and a number, spare: for how many new
//! keys there is room. Memory is taken by `reserve` alone, so that no insertion can fail.
//!
//! The pairs stand in the pages of a B+-tree: a page has at most 32 pairs or children, and every page
//! but the root at least 16. The pages stand in one vector and name each other by their places. A page
//! takes the room for 32 when it is made; one that a removal empties stays the store's, and is used
//! again.
#![tactic(auto)]

ghost use Rattle.std.specs.Prelude.{◌≡◌, ◌+◌, ◌≤◌, ◌⊎◌, [], length, IsSome, IsOk, OnOk};
ghost use Rattle.std.specs.Option.{option_copied, option_map, option_copied_mut};
ghost use Rattle.std.specs.BTreeMap.{is_at, insert_entry};
ghost use Rattle.std.specs.Map.{lookup, remove_entry};
ghost use Rattle.std.specs.Map.Iter.{deref_pair};
ghost use Rattle.std.specs.Borrow.{sem};
ghost use Rattle.sg_pages.specs.Stored.{HasRisingKeys, first_from, first_past};

mod insertion;
mod removal;
mod rows;
mod sorted;
mod stock;
mod trees;

use crate::trees::Shelf;
use std::alloc::{AllocError, Global};
use std::marker::Model;

/// Pairs of a key and a value in the order of their keys, no key twice, and room for more.
///
/// Keys are told apart by their order alone: two keys that compare as equal are one key, and the
/// store keeps the one that came first.
///
/// Room is counted by capacity, in pages that a tree of so many pairs can have: at most (n + 14) / 15
/// for n pairs, since every page but the root has at least 16 entries. A store with n for its pairs
/// and its spare together, unless both are 0, has at least (n + 254) / 15 pages, those of the tree and
/// the free ones. So where spare is 1 or more at least 17 are free, and an insertion takes at most 16:
/// one for each level that it splits and one for a new root, of no more than 16 levels. A removal
/// seldom empties a page, and yet leaves room for another key. `reserve(1)` before each of n
/// insertions leaves at most n / 15 + 18 pages.
#[derive(Drop)]
pub struct Pages<K: Ord + Copy, V> {
    shelf: Shelf<K, V>,
    root: usize,
    levels: usize,
    len: usize,
    spare: usize,
}

impl<K: Ord + Copy, V> Model for Pages<K, V> {
    ghost use Rattle.sg_pages.specs.Stored.{Stored, stored_code};
    ghost use Rattle.sg_pages.specs.Trees.{pairs_in, IsStore};

    ghost Value = { Stored K V };

    ghost coded = { stored_code K.code V.code };

    ghost view = { λ it. record { pairs = pairs_in it.len it.levels it.shelf.stock.pages it.root; spare = it.spare } };

    ghost invariant = { λ it. IsStore K.cmp it.shelf.stock.pages it.shelf.stock.free it.root it.levels it.len it.spare };
}

impl<K: Ord + Copy, V> Pages<K, V> {
    ghost use Rattle.sg_pages.specs.Lending.{lends_value};

    /// A store without pairs and without room. It takes no memory, and keeps the allocator for
    /// `reserve`.
    pub fn new(alloc: Global) -> Pages<K, V>
        ensures pairs { result.pairs ≡ [] }
        ensures spare { result.spare ≡ 0 }
    {
        Pages {
            shelf: Shelf::new(alloc),
            root: 0,
            levels: 0,
            len: 0,
            spare: 0,
        }
    }

    /// How many pairs there are.
    pub fn len(&self) -> usize
        ensures { result ≡ length self.now.pairs }
    {
        self.len
    }

    /// For how many new keys there is room.
    pub fn spare(&self) -> usize
        ensures { result ≡ self.now.spare }
    {
        self.spare
    }

    /// Makes room for at least `more` new keys, so that as many insertions need no memory.
    ///
    /// `AllocError` is want of memory, and never comes where there is as much room. The pairs stay as
    /// they were in either case, and no room that was there is lost.
    pub fn reserve(&mut self, more: usize) -> Result<(), AllocError>
        ensures pairs { self.new.pairs ≡ self.old.pairs }
        ensures spare { OnOk result (more ≤ self.new.spare) }
        ensures kept { self.old.spare ≤ self.new.spare }
        ensures there { more ≤ self.old.spare → IsOk result }
        ensures rising { HasRisingKeys K.cmp self.new.pairs }
    {
        if more <= self.spare {
            return Ok(());
        }
        // So many pairs need 2^58 pages or more, and no address space has room for those.
        if more >= 1 << 62 || self.len >= 1 << 62 {
            return Err(AllocError);
        }
        self.shelf.stock.reserve((self.len + more) / 15 + 18)?;
        self.spare = more;
        Ok(())
    }

    /// The value at the key; `None` exactly where the key isn't there.
    pub fn get(&self, key: &K) -> Option<&V>
        ensures value { option_copied result ≡ lookup (is_at (K.cmp key.now)) self.now.pairs }
        ensures rising { HasRisingKeys K.cmp self.now.pairs }
    {
        match self.at_or_after(key) {
            None => None,
            Some((found, value)) => {
                if key.cmp(found).is_eq() {
                    Some(value)
                } else {
                    None
                }
            }
        }
    }

    /// The value at the key, to be changed in place; `None` exactly where the key isn't there.
    pub fn get_mut(&mut self, key: &K) -> Option<&mut V>
        ensures* writes_back { sem 𝓛 (lends_value K.row V.row K.Ord self.entry key.now result) }
        ensures value { option_copied_mut result ≡ lookup (is_at (K.cmp key.now)) self.old.pairs }
        ensures rising { HasRisingKeys K.cmp self.old.pairs }
    {
        if self.len == 0 {
            return None;
        }
        match self.shelf.find(self.root, self.levels, key) {
            None => None,
            Some((page, place)) => {
                let entry = self.shelf.stock.item_mut(page, place);
                let slot = &mut entry.1;
                Some(slot.value_mut())
            }
        }
    }

    /// The first pair whose key isn't below this one; `None` exactly where all keys are below it.
    pub fn at_or_after(&self, key: &K) -> Option<(&K, &V)>
        ensures first { option_map deref_pair result ≡ first_from K.cmp key.now self.now.pairs }
        ensures rising { HasRisingKeys K.cmp self.now.pairs }
    {
        if self.len == 0 {
            return None;
        }
        self.shelf.first_reached(self.root, self.levels, key, false)
    }

    /// The first pair whose key is above this one; `None` exactly where no key is above it.
    pub fn after(&self, key: &K) -> Option<(&K, &V)>
        ensures first { option_map deref_pair result ≡ first_past K.cmp key.now self.now.pairs }
        ensures rising { HasRisingKeys K.cmp self.now.pairs }
    {
        if self.len == 0 {
            return None;
        }
        self.shelf.first_reached(self.root, self.levels, key, true)
    }

    /// Puts the value at the key, and hands back the value that it replaces.
    ///
    /// It takes no memory. A new key uses up at most one unit of spare, and a present key none.
    pub fn insert_reserved(&mut self, key: K, value: V) -> Option<V>
        requires room { IsSome (lookup (is_at (K.cmp key)) self.old.pairs) ⊎ (1 ≤ self.old.spare) }
        ensures pairs { self.new.pairs ≡ insert_entry K.cmp self.old.pairs key value }
        ensures before { result ≡ lookup (is_at (K.cmp key)) self.old.pairs }
        ensures kept { IsSome result → self.new.spare ≡ self.old.spare }
        ensures spare { self.old.spare ≤ self.new.spare + 1 }
        ensures rising { HasRisingKeys K.cmp self.new.pairs }
    {
        if self.len == 0 {
            self.root = self.shelf.plant(key, value);
            self.levels = 0;
            self.len = 1;
            self.spare -= 1;
            return None;
        }
        let top = self.shelf.put_top(self.root, self.levels, key, value);
        self.root = top.root;
        self.levels = top.levels;
        match top.before {
            None => {
                self.len += 1;
                self.spare -= 1;
                None
            }
            Some(before) => Some(before),
        }
    }

    /// Takes the key and its value out; `None` exactly where the key isn't there. It takes no
    /// memory, no room is lost, and a key taken out leaves room for another.
    pub fn remove(&mut self, key: &K) -> Option<V>
        ensures pairs { self.new.pairs ≡ remove_entry (is_at (K.cmp key.now)) self.old.pairs }
        ensures value { result ≡ lookup (is_at (K.cmp key.now)) self.old.pairs }
        ensures spare { self.old.spare ≤ self.new.spare }
        ensures freed { IsSome result → self.old.spare + 1 ≤ self.new.spare }
        ensures rising { HasRisingKeys K.cmp self.new.pairs }
    {
        if self.len == 0 {
            return None;
        }
        if self.len == 1 {
            return self.remove_last(key);
        }
        let top = self.shelf.cut_top(self.root, self.levels, key);
        self.root = top.root;
        self.levels = top.levels;
        match top.before {
            None => None,
            Some(value) => {
                self.len -= 1;
                self.spare += 1;
                Some(value)
            }
        }
    }

    // The same for the only pair.
    fn remove_last(&mut self, key: &K) -> Option<V>
        requires { length self.old.pairs ≡ 1 }
        ensures pairs { self.new.pairs ≡ remove_entry (is_at (K.cmp key.now)) self.old.pairs }
        ensures value { result ≡ lookup (is_at (K.cmp key.now)) self.old.pairs }
        ensures spare { self.old.spare ≤ self.new.spare }
        ensures freed { IsSome result → self.old.spare + 1 ≤ self.new.spare }
        ensures rising { HasRisingKeys K.cmp self.new.pairs }
    {
        match self.shelf.cut_last(self.root, key) {
            None => None,
            Some(value) => {
                self.len = 0;
                self.spare += 1;
                Some(value)
            }
        }
    }
}

#[cfg(test)]
mod tests;
