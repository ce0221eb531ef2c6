// Trees of pages in one stock: reading.
ghost use Rattle.std.specs.Prelude.{◌≡◌, ◌-◌, ◌<◌, ◌≤◌, [], length, slice_index_or, slice_set, Some, None, MatchOption};
ghost use Rattle.std.specs.Option.{option_map, option_copied};
ghost use Rattle.std.specs.Map.{lookup_entry, lookup};
ghost use Rattle.std.specs.Map.Iter.{deref_pair};
ghost use Rattle.std.specs.BTreeMap.{is_at};
ghost use Rattle.std.specs.Borrow.{sem};
ghost use Rattle.sg_pages.specs.declared.trees.Slot.TheVariants.{Value, Child};
ghost use Rattle.sg_pages.specs.Slots.{lends_slot};
ghost use Rattle.sg_pages.specs.Stored.{HasRisingKeys};
ghost use Rattle.sg_pages.specs.Sorted.{is_reached, first_place};
ghost use Rattle.sg_pages.specs.Sheets.{page_at};
ghost use Rattle.sg_pages.specs.Trees.{IsTree, pairs_of, child_of, value_of, value_pair, IsChildFor, IsValue, IsChild, IsWay, last_key};

use crate::sorted::{place, search};
use crate::stock::Stock;
use std::alloc::Global;

/// What an entry of a page has beside its key: a value at a leaf, and above the leaves the place of a page.
#[derive(Drop)]
pub enum Slot<V> {
    Value(V),
    Child(usize),
}

impl<V> Slot<V> {
    pub fn child(&self) -> usize
        ensures { result ≡ child_of self.now }
    {
        match self {
            Slot::Value(_) => 0,
            Slot::Child(child) => *child,
        }
    }

    pub fn value(&self) -> Option<&V>
        ensures { option_copied result ≡ value_of self.now }
    {
        match self {
            Slot::Value(value) => Some(value),
            Slot::Child(_) => None,
        }
    }

    pub fn value_mut(&mut self) -> &mut V
        requires { IsValue self.old }
        ensures* writes_back { sem 𝓛 (lends_slot V.row self.entry result) }
        ensures value { self.old ≡ Value result.now }
    {
        match self {
            Slot::Value(value) => value,
            Slot::Child(_) => unreachable!(),
        }
    }

    pub fn into_value(self) -> V
        requires { IsValue self }
        ensures { self ≡ Value result }
    {
        match self {
            Slot::Value(value) => value,
            Slot::Child(_) => unreachable!(),
        }
    }

    pub fn into_child(self) -> usize
        requires { IsChild (λ _. Unit {0}) self }
        ensures { self ≡ Child result }
    {
        match self {
            Slot::Value(_) => unreachable!(),
            Slot::Child(child) => child,
        }
    }
}

/// The pages of a tree, with those that are free. A leaf's entries are keys with values; above the
/// leaves an entry is a page's place, and its key is the last one below that page.
#[derive(Drop)]
pub struct Shelf<K: Ord + Copy, V> {
    pub stock: Stock<(K, Slot<V>)>,
}

impl<K: Ord + Copy, V> Shelf<K, V> {
    pub fn new(alloc: Global) -> Shelf<K, V>
        ensures pages { result.stock.pages ≡ [] }
        ensures free { result.stock.free ≡ [] }
    {
        Shelf {
            stock: Stock::new(alloc),
        }
    }

    /// The first pair whose key isn't below this one, or, where strict, is above it.
    pub fn first_reached(
        &self,
        root: usize,
        levels: usize,
        key: &K,
        strict: bool,
    ) -> Option<(&K, &V)>
        requires tree { IsTree levels self.now.stock.pages root }
        requires rising { HasRisingKeys K.cmp (pairs_of levels self.now.stock.pages root) }
        ensures { option_map deref_pair result ≡ lookup_entry (is_reached K.cmp key.now strict) (pairs_of levels self.now.stock.pages root) }
    {
        let mut at = root;
        let mut depth = levels;
        while depth > 0 {
            let Some(entry) = reached_entry(self.stock.page(at), key, strict) else {
                return None;
            };
            at = entry.1.child();
            depth -= 1;
        }
        match reached_entry(self.stock.page(at), key, strict) {
            None => None,
            Some(entry) => pair_in(entry),
        }
    }

    /// The page and the place there of the key's entry.
    pub fn find(&self, at: usize, depth: usize, key: &K) -> Option<(usize, usize)>
        requires tree { IsTree depth self.now.stock.pages at }
        requires rising { HasRisingKeys K.cmp (pairs_of depth self.now.stock.pages at) }
        ensures { MatchOption result (lookup (is_at (K.cmp key.now)) (pairs_of depth self.now.stock.pages at) ≡ None) (λ at_key. IsWay K.cmp key.now depth self.now.stock.pages at at_key.0 at_key.1) }
    {
        if depth == 0 {
            return match search(self.stock.page(at), key) {
                Ok(place) => Some((at, place)),
                Err(_) => None,
            };
        }
        let (_, child) = self.child_for(at, key);
        self.find(child, depth - 1, key)
    }

    // The place of the first child with a key that isn't below this one, or of the last, and that child.
    pub fn child_for(&self, at: usize, key: &K) -> (usize, usize)
        requires page { at < length self.now.stock.pages }
        requires used { 1 ≤ length (page_at self.now.stock.pages at) }
        requires rising { HasRisingKeys K.cmp (page_at self.now.stock.pages at) }
        ensures { IsChildFor K.cmp key.now (page_at self.now.stock.pages at) result.0 result.1 }
    {
        let entries = self.stock.page(at);
        let place = place(entries, key, false);
        if place < entries.len() {
            return (place, entries[place].1.child());
        }
        (place - 1, entries[place - 1].1.child())
    }

    // The key of a page's last entry.
    pub fn high(&self, at: usize) -> K
        requires page { at < length self.now.stock.pages }
        requires used { 1 ≤ length (page_at self.now.stock.pages at) }
        ensures { last_key (page_at self.now.stock.pages at) ≡ Some result }
    {
        let entries = self.stock.page(at);
        entries[entries.len() - 1].0
    }

    // Writes the key of a child.
    pub fn set_key(&mut self, at: usize, place: usize, key: K)
        requires page { at < length self.old.stock.pages }
        requires place { place < length (page_at self.old.stock.pages at) }
        ensures pages { (d : K × Slot V) → self.new.stock.pages ≡ slice_set self.old.stock.pages at (slice_set (page_at self.old.stock.pages at) place (key, (slice_index_or (page_at self.old.stock.pages at) place d).1)) }
        ensures free { self.new.stock.free ≡ self.old.stock.free }
    {
        self.stock.item_mut(at, place).0 = key;
    }
}

fn reached_entry<'a, K: Ord + Copy, V>(
    entries: &'a [(K, Slot<V>)],
    key: &K,
    strict: bool,
) -> Option<&'a (K, Slot<V>)>
    requires { HasRisingKeys K.cmp entries.now }
    ensures { let at = first_place (λ e. is_reached K.cmp key.now strict e.0) entries.now
        in MatchOption result (length entries.now ≤ at) (λ e. (at < length entries.now) × (e.now ≡ slice_index_or entries.now at e.now)) }
{
    entries.get(place(entries, key, strict))
}

fn pair_in<K, V>(entry: &(K, Slot<V>)) -> Option<(&K, &V)>
    ensures { option_map deref_pair result ≡ value_pair entry.now }
{
    match entry.1.value() {
        None => None,
        Some(value) => Some((&entry.0, value)),
    }
}
