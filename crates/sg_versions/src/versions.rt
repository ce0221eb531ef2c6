ghost use Rattle.std.specs.Prelude.{◌≡◌, ◌+◌, ◌≤◌, ◌⊎◌, [], cond, length, is_some, is_none, IsSome, IsOk, OnOk, Some, None};
ghost use Rattle.std.specs.Ordering.{is_eq};
ghost use Rattle.std.specs.Option.{option_copied, option_map};
ghost use Rattle.std.specs.Map.{lookup, remove_entry};
ghost use Rattle.std.specs.Map.Iter.{deref_pair};
ghost use Rattle.std.specs.BTreeMap.{is_at, insert_entry};
ghost use Rattle.sg_pages.specs.Stored.{HasRisingKeys, first_from, first_past};
ghost use Rattle.sg_versions.specs.Versions.{visible, fresh, kept_value, written, outcome, ended, is_writer, settled, settled_version, change_at};
ghost use Rattle.sg_versions.specs.Writers.{writer_of, is_emptied_by, settle_at};

use crate::version::{Version, WritesEnd};
use sg_groups::Groups;
use sg_modes::Session;
use sg_pages::Pages;
use std::alloc::{AllocError, Global};
use std::marker::Model;

/// Keys in their order, with what the last commit left at each and what a session has written there
/// since; and room for more keys.
///
/// A look-up compares a logarithmic number of keys. The end of a session's writes costs what it
/// wrote, however many keys there are. Keys are told apart by their order alone.
#[derive(Drop)]
pub struct Versions<K: Ord + Copy, V: Drop> {
    rows: Pages<K, Version<V>>,
    listed: Groups<Session, K>,
    // How many keys have a writer.
    written_keys: usize,
}

impl<K: Ord + Copy, V: Drop> Model for Versions<K, V> {
    ghost use Rattle.std.specs.Prelude.{◌≡◌};
    ghost use Rattle.sg_versions.specs.Versions.{Versioned, versioned_code};
    ghost use Rattle.sg_versions.specs.Writers.{IsIndexed, count_written, seen_as};

    ghost Value = { Versioned K V };

    ghost coded = { versioned_code K.code V.code };

    ghost view = { λ it. seen_as it.rows it.listed };

    ghost invariant = { λ it. IsIndexed K.cmp it.rows.pairs it.listed.pairs it.listed.spare × (it.written_keys ≡ count_written it.rows.pairs) };
}

impl<K: Ord + Copy, V: Drop> Versions<K, V> {
    /// No keys and no room. It takes no memory, and keeps the allocator for `reserve`.
    pub fn new(alloc: Global) -> Versions<K, V>
        ensures rows { result.rows ≡ [] }
        ensures spare { result.spare ≡ 0 }
    {
        Versions {
            rows: Pages::new(alloc),
            listed: Groups::new(alloc),
            written_keys: 0,
        }
    }

    /// Makes room for at least `more` new keys, so that as many need no memory.
    ///
    /// `AllocError` is want of memory, and never comes where there is as much room. The rows stay as they
    /// were in either case, and no room that was there is lost.
    pub fn reserve(&mut self, more: usize) -> Result<(), AllocError>
        ensures rows { self.new.rows ≡ self.old.rows }
        ensures spare { OnOk result (more ≤ self.new.spare) }
        ensures kept { self.old.spare ≤ self.new.spare }
        ensures there { more ≤ self.old.spare → IsOk result }
    {
        self.rows.reserve(more)?;
        let unwritten = self.rows.len() - self.written_keys;
        if more <= self.listed.spare() - unwritten {
            return Ok(());
        }
        match unwritten.checked_add(more) {
            None => Err(AllocError),
            Some(room) => self.listed.reserve(room),
        }
    }

    /// That the keys rise, for a proof that rests on it. It does nothing.
    #[inline(always)]
    pub fn rising(&self)
        ensures { HasRisingKeys K.cmp self.now.rows }
    {
        let _rows = &self.rows;
    }

    /// What the key has; `None` exactly where the key isn't there.
    pub fn get(&self, key: &K) -> Option<&Version<V>>
        ensures version { option_copied result ≡ lookup (is_at (K.cmp key.now)) self.now.rows }
        ensures rising { HasRisingKeys K.cmp self.now.rows }
    {
        self.rows.get(key)
    }

    /// The first row whose key isn't below this one; `None` exactly where all keys are below it.
    pub fn at_or_after(&self, key: &K) -> Option<(&K, &Version<V>)>
        ensures first { option_map deref_pair result ≡ first_from K.cmp key.now self.now.rows }
        ensures rising { HasRisingKeys K.cmp self.now.rows }
    {
        self.rows.at_or_after(key)
    }

    /// The first row whose key is above this one; `None` exactly where no key is above it.
    pub fn after(&self, key: &K) -> Option<(&K, &Version<V>)>
        ensures first { option_map deref_pair result ≡ first_past K.cmp key.now self.now.rows }
        ensures rising { HasRisingKeys K.cmp self.now.rows }
    {
        self.rows.after(key)
    }

    /// What the session sees at the key: what it wrote itself, or else what is committed.
    pub fn visible(&self, s: Session, key: &K) -> Option<&V>
        ensures { option_copied result ≡ visible s (lookup (is_at (K.cmp key.now)) self.now.rows) }
    {
        match self.rows.get(key) {
            None => None,
            Some(version) => version.seen(s),
        }
    }

    /// Adds the key with a committed value. It takes no memory, and uses up at most one unit of spare.
    pub fn put_kept(&mut self, key: K, value: V)
        requires absent { lookup (is_at (K.cmp key)) self.old.rows ≡ None }
        requires room { 1 ≤ self.old.spare }
        ensures rows { self.new.rows ≡ insert_entry K.cmp self.old.rows key (kept_value value) }
        ensures spare { self.old.spare ≤ self.new.spare + 1 }
    {
        let version = Version {
            committed: Some(value),
            writer: None,
            live: None,
        };
        self.rows.insert_reserved(key, version);
    }

    /// Adds the key without a value for the session, which is its writer then. It takes no memory,
    /// and uses up at most one unit of spare.
    pub fn put_reserved(&mut self, s: Session, key: K)
        requires absent { lookup (is_at (K.cmp key)) self.old.rows ≡ None }
        requires room { 1 ≤ self.old.spare }
        ensures rows { self.new.rows ≡ insert_entry K.cmp self.old.rows key (fresh s) }
        ensures each { (k : K) → lookup (is_at (K.cmp k)) self.new.rows ≡ cond (is_eq (K.cmp key k)) (Some (fresh s)) (lookup (is_at (K.cmp k)) self.old.rows) }
        ensures spare { self.old.spare ≤ self.new.spare + 1 }
    {
        let version = Version {
            committed: None,
            writer: Some(s),
            live: None,
        };
        self.rows.insert_reserved(key, version);
        self.listed.insert_reserved(s, key);
        let keys = self.rows.len();
        prove!(self.written_keys < keys);
        self.written_keys += 1;
    }

    /// Writes at a key for the session, which is its writer then; `None` leaves no value there. No
    /// other session may be the writer. It takes no memory, and no room is lost.
    pub fn write(&mut self, s: Session, key: K, value: Option<V>)
        requires present { IsSome (lookup (is_at (K.cmp key)) self.old.rows) }
        requires alone { (writer_of (lookup (is_at (K.cmp key)) self.old.rows) ≡ None) ⊎ (writer_of (lookup (is_at (K.cmp key)) self.old.rows) ≡ Some s) }
        ensures rows { self.new.rows ≡ change_at (is_at (K.cmp key)) (written s value) self.old.rows }
        ensures each { (k : K) → lookup (is_at (K.cmp k)) self.new.rows ≡ cond (is_eq (K.cmp key k)) (option_map (written s value) (lookup (is_at (K.cmp k)) self.old.rows)) (lookup (is_at (K.cmp k)) self.old.rows) }
        ensures spare { self.old.spare ≤ self.new.spare }
    {
        if write_row(&mut self.rows, s, &key, value) {
            self.listed.insert_reserved(s, key);
            let keys = self.rows.len();
            prove!(self.written_keys < keys);
            self.written_keys += 1;
        }
    }

    /// Takes out a key whose writer the session is, with all that it has. It takes no memory, and leaves
    /// room for another key.
    pub fn remove(&mut self, s: Session, key: &K)
        requires own { writer_of (lookup (is_at (K.cmp key.now)) self.old.rows) ≡ Some s }
        ensures rows { self.new.rows ≡ remove_entry (is_at (K.cmp key.now)) self.old.rows }
        ensures each { (k : K) → lookup (is_at (K.cmp k)) self.new.rows ≡ cond (is_eq (K.cmp key.now k)) None (lookup (is_at (K.cmp k)) self.old.rows) }
        ensures spare { self.old.spare + 1 ≤ self.new.spare }
    {
        self.rows.remove(key);
        self.listed.remove(&s, key);
        self.written_keys -= 1;
    }

    /// Commits all that the session wrote: its values are the committed ones then, and the keys at
    /// which it left none are gone. It takes no memory, and no room is lost.
    pub fn keep(&mut self, s: Session)
        ensures rows { self.new.rows ≡ settled WritesEnd.Keep s self.old.rows }
        ensures each { (k : K) → lookup (is_at (K.cmp k)) self.new.rows ≡ settled_version WritesEnd.Keep s (lookup (is_at (K.cmp k)) self.old.rows) }
        ensures spare { self.old.spare ≤ self.new.spare }
    {
        self.settle(s, WritesEnd::Keep);
    }

    /// Drops all that the session wrote: the committed values stay, and the keys at which there is
    /// none are gone. It takes no memory, and no room is lost.
    pub fn undo(&mut self, s: Session)
        ensures rows { self.new.rows ≡ settled WritesEnd.Undo s self.old.rows }
        ensures each { (k : K) → lookup (is_at (K.cmp k)) self.new.rows ≡ settled_version WritesEnd.Undo s (lookup (is_at (K.cmp k)) self.old.rows) }
        ensures spare { self.old.spare ≤ self.new.spare }
    {
        self.settle(s, WritesEnd::Undo);
    }

    fn settle(&mut self, s: Session, end: WritesEnd)
        ensures rows { self.new.rows ≡ settled end s self.old.rows }
        ensures each { (k : K) → lookup (is_at (K.cmp k)) self.new.rows ≡ settled_version end s (lookup (is_at (K.cmp k)) self.old.rows) }
        ensures spare { self.old.spare ≤ self.new.spare }
    {
        while let Some(key) = self.listed.first(&s) {
            self.listed.remove(&s, &key);
            settle_row(&mut self.rows, &key, end);
            self.written_keys -= 1;
        }
    }
}

// Writes at the key, and says whether it had no writer before.
fn write_row<K: Ord + Copy, V: Drop>(
    rows: &mut Pages<K, Version<V>>,
    s: Session,
    key: &K,
    value: Option<V>,
) -> bool
    requires { IsSome (lookup (is_at (K.cmp key.now)) rows.old.pairs) }
    ensures rows { rows.new.pairs ≡ change_at (is_at (K.cmp key.now)) (written s value) rows.old.pairs }
    ensures first { result ≡ is_none (writer_of (lookup (is_at (K.cmp key.now)) rows.old.pairs)) }
    ensures spare { rows.new.spare ≡ rows.old.spare }
    ensures rising { HasRisingKeys K.cmp rows.new.pairs }
{
    match rows.get_mut(key) {
        None => false,
        Some(version) => version.write(s, value),
    }
}

// Ends what was written at the key, which goes where nothing is left.
fn settle_row<K: Ord + Copy, V: Drop>(rows: &mut Pages<K, Version<V>>, key: &K, end: WritesEnd)
    ensures rows { rows.new.pairs ≡ settle_at (is_at (K.cmp key.now)) end rows.old.pairs }
    ensures spare { rows.old.spare ≤ rows.new.spare }
    ensures rising { HasRisingKeys K.cmp rows.new.pairs }
{
    if end_row(rows, key, end) {
        rows.remove(key);
    }
}

// Ends what was written at the key, and says whether nothing is left.
fn end_row<K: Ord + Copy, V: Drop>(rows: &mut Pages<K, Version<V>>, key: &K, end: WritesEnd) -> bool
    ensures rows { rows.new.pairs ≡ change_at (is_at (K.cmp key.now)) (ended end) rows.old.pairs }
    ensures nothing { result ≡ is_emptied_by end (lookup (is_at (K.cmp key.now)) rows.old.pairs) }
    ensures spare { rows.new.spare ≡ rows.old.spare }
    ensures rising { HasRisingKeys K.cmp rows.new.pairs }
{
    match rows.get_mut(key) {
        None => false,
        Some(version) => version.settle(end),
    }
}
