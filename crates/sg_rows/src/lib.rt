//! The rows of a table: at each key the shape that is committed, and the one that a session has
//! written since and not committed yet.
//!
//! Memory is taken by loading, reserving and copying alone, so that no write and no end of a
//! transaction can fail.
#![tactic(auto)]

ghost use Rattle.std.specs.Prelude.{◌≡◌, ◌+◌, ◌≤◌, ◌⊎◌, [], ◌∷◌, ◌++◌, length, map, slice_get, is_some, IsSome, IfSome, IfOk, IsOk, OnOk, OnErr, None, Some};
ghost use Rattle.std.specs.Ordering.{nat_cmp};
ghost use Rattle.std.specs.Option.{option_copied, option_map};
ghost use Rattle.std.specs.Map.Iter.{deref_pair};
ghost use Rattle.std.specs.BTreeMap.{is_at, insert_entry};
ghost use Rattle.sg_shape.specs.Sound.{IsSound};
ghost use Rattle.sg_plain.specs.Rows.{AreRows};
ghost use Rattle.sg_pages.specs.Stored.{HasRisingKeys, first_past};
ghost use Rattle.sg_versions.specs.Versions.{visible, fresh, written, settled, change_at};
ghost use Rattle.sg_versions.specs.Writers.{writer_of};
ghost use Rattle.sg_rows.specs.Table.{IsSoundRow, AreSoundRows, version_at, row_key, loaded_row, committed_rows, rows_past, IsNextRow};

use sg_cells::Key;
use sg_modes::Session;
use sg_plain::PlainRows;
use sg_shape::Shape;
use sg_versions::{Version, Versions, WritesEnd};
use std::alloc::{AllocError, Global};
use std::marker::Model;

/// Rows by rising key, each with its committed shape, the session that has written it since and the
/// shape that this session left; and room for more keys. All shapes are sound.
///
/// A look-up compares a logarithmic number of keys. The end of a session's writes costs what it
/// wrote, however many rows there are.
#[derive(Drop)]
pub struct Rows {
    versions: Versions<u32, Shape>,
}

impl Model for Rows {
    ghost use Rattle.std.specs.Prelude.{ℕ};
    ghost use Rattle.sg_shape.specs.declared.shapes.Shape.{Shape};
    ghost use Rattle.sg_versions.specs.Versions.{Versioned};
    ghost use Rattle.sg_rows.specs.Table.{AreSoundRows};

    ghost Value = { Versioned ℕ Shape };

    ghost view = { λ it. it.versions };

    ghost invariant = { λ it. AreSoundRows it.versions.rows };
}

impl Rows {
    /// No rows and no room. It takes no memory, and keeps the allocator for `reserve`.
    pub fn new(alloc: Global) -> Rows
        ensures rows { result.rows ≡ [] }
        ensures spare { result.spare ≡ 0 }
    {
        Rows {
            versions: Versions::new(alloc),
        }
    }

    /// Takes these rows over as committed ones, where no key is there yet. Room that was reserved
    /// before is given up.
    ///
    /// `AllocError` is want of memory; nothing has changed then.
    pub fn load(&mut self, alloc: Global, rows: PlainRows) -> Result<(), AllocError>
        requires empty { self.old.rows ≡ [] }
        ensures rows { OnOk result (self.new.rows ≡ map loaded_row rows) }
        ensures err { OnErr result (self.new ≡ self.old) }
    {
        self.versions = loaded(alloc, &rows)?;
        Ok(())
    }

    /// Makes room for at least `more` new keys, so that as many need no memory.
    ///
    /// `AllocError` is want of memory, and never comes where there is as much room. The rows stay as they
    /// were in either case, and no room that was there is lost.
    pub fn reserve(&mut self, more: usize) -> Result<(), AllocError>
        ensures rows { self.new.rows ≡ self.old.rows }
        ensures spare { OnOk result (more ≤ self.new.spare) }
        ensures kept { self.old.spare ≤ self.new.spare }
        ensures there { more ≤ self.old.spare → IsOk result }
    {
        self.versions.reserve(more)
    }

    /// That the keys rise and all shapes are sound, for a proof that rests on it. It does nothing.
    #[inline(always)]
    pub fn in_order(&self)
        ensures sound { AreSoundRows self.now.rows }
        ensures rising { HasRisingKeys nat_cmp self.now.rows }
    {
        self.versions.rising();
    }

    /// Whether the key is there, with or without a shape.
    pub fn present(&self, key: u32) -> bool
        ensures present { result ≡ is_some (version_at self.now.rows key) }
        ensures sound { AreSoundRows self.now.rows }
        ensures rising { HasRisingKeys nat_cmp self.now.rows }
    {
        self.versions.get(&key).is_some()
    }

    /// The least key above this one, or the end of the table where there is none.
    pub fn next_key(&self, key: u32) -> Key
        ensures next { result ≡ row_key (first_past nat_cmp key self.now.rows) }
        ensures rising { HasRisingKeys nat_cmp self.now.rows }
    {
        match self.versions.after(&key) {
            None => Key::RowEnd,
            Some((next, _)) => Key::Row(*next),
        }
    }

    /// The least key, or the end of the table where there is none.
    pub fn first_key(&self) -> Key
        ensures first { result ≡ row_key (slice_get self.now.rows 0) }
        ensures rising { HasRisingKeys nat_cmp self.now.rows }
    {
        match next_row(&self.versions, None) {
            None => Key::RowEnd,
            Some((first, _)) => Key::Row(*first),
        }
    }

    /// What the session sees at the key: the shape that it wrote itself, or else the committed one.
    /// `None` exactly where there is none.
    pub fn visible(&self, s: Session, key: u32) -> Option<&Shape>
        ensures shape { option_copied result ≡ visible s (version_at self.now.rows key) }
        ensures sound { AreSoundRows self.now.rows }
    {
        let versions = &self.versions;
        versions.visible(s, &key)
    }

    /// The session that has written at the key and whose writes haven't ended; `None` where there is
    /// none, or no such key.
    pub fn writer(&self, key: u32) -> Option<Session>
        ensures { result ≡ writer_of (version_at self.now.rows key) }
    {
        match self.versions.get(&key) {
            None => None,
            Some(version) => version.writer,
        }
    }

    /// Adds the key without a shape for the session, which is its writer then. It takes no memory,
    /// and uses up at most one unit of spare.
    pub fn put_reserved(&mut self, s: Session, key: u32)
        requires absent { version_at self.old.rows key ≡ None }
        requires room { 1 ≤ self.old.spare }
        ensures rows { self.new.rows ≡ insert_entry nat_cmp self.old.rows key (fresh s) }
        ensures spare { self.old.spare ≤ self.new.spare + 1 }
    {
        self.versions.put_reserved(s, key);
    }

    /// Writes at a key for the session, which is its writer then; `None` leaves no shape there. No
    /// other session may be the writer. It takes no memory, and no room is lost.
    pub fn write(&mut self, s: Session, key: u32, shape: Option<Shape>)
        requires present { IsSome (version_at self.old.rows key) }
        requires alone { (writer_of (version_at self.old.rows key) ≡ None) ⊎ (writer_of (version_at self.old.rows key) ≡ Some s) }
        requires sound { IfSome shape IsSound }
        ensures rows { self.new.rows ≡ change_at (is_at (nat_cmp key)) (written s shape) self.old.rows }
        ensures spare { self.old.spare ≤ self.new.spare }
    {
        self.versions.write(s, key, shape);
    }

    /// Commits all that the session wrote: its shapes are the committed ones then, and the keys at
    /// which it left none are gone. It takes no memory, and no room is lost.
    pub fn keep(&mut self, s: Session)
        ensures rows { self.new.rows ≡ settled WritesEnd.Keep s self.old.rows }
        ensures spare { self.old.spare ≤ self.new.spare }
    {
        self.versions.keep(s);
    }

    /// Drops all that the session wrote: the committed shapes stay, and the keys at which there is
    /// none are gone. It takes no memory, and no room is lost.
    pub fn undo(&mut self, s: Session)
        ensures rows { self.new.rows ≡ settled WritesEnd.Undo s self.old.rows }
        ensures spare { self.old.spare ≤ self.new.spare }
    {
        self.versions.undo(s);
    }

    /// A copy of the committed shapes with their keys. `AllocError` is want of memory.
    pub fn committed(&self, alloc: Global) -> Result<PlainRows, AllocError>
        ensures { IfOk result (λ rows. rows ≡ committed_rows self.now.rows) }
    {
        let versions = &self.versions;
        let mut rows = PlainRows::new(alloc);
        let mut last = None;
        while let Some((key, version)) = next_row(versions, last) {
            push_committed(alloc, &mut rows, *key, version)?;
            last = Some(*key);
        }
        Ok(rows)
    }
}

// The first row above this key, or of all.
fn next_row(versions: &Versions<u32, Shape>, last: Option<u32>) -> Option<(&u32, &Version<Shape>)>
    ensures first { option_map deref_pair result ≡ slice_get (rows_past last versions.now.rows) 0 }
    ensures rising { HasRisingKeys nat_cmp versions.now.rows }
{
    match last {
        None => versions.at_or_after(&0),
        Some(key) => versions.after(&key),
    }
}

// Puts the committed shape last, if there is one.
fn push_committed(
    alloc: Global,
    rows: &mut PlainRows,
    key: u32,
    version: &Version<Shape>,
) -> Result<(), AllocError>
    requires { IfSome version.now.committed (IsNextRow rows.old key) }
    ensures { OnOk result (rows.new ≡ rows.old ++ committed_rows ((key, version.now) ∷ [])) }
{
    if let Some(shape) = &version.committed {
        rows.push(key, shape.copy(alloc)?)?;
    }
    Ok(())
}

// These rows, committed and without writers.
fn loaded(alloc: Global, rows: &PlainRows) -> Result<Versions<u32, Shape>, AllocError>
    ensures rows { IfOk result (λ versions. versions.rows ≡ map loaded_row rows.now) }
    ensures sound { AreRows rows.now }
{
    let all = rows.as_slice();
    let mut versions = Versions::new(alloc);
    versions.reserve(all.len())?;
    for row in all {
        versions.put_kept(row.0, row.1.copy(alloc)?);
    }
    Ok(versions)
}

#[cfg(test)]
mod tests;
