//! Rows in an ordered store.
ghost use Rattle.std.specs.Prelude.{◌≡◌, ◌+◌, ◌≤◌, ◌↔◌, ◌∷◌, ◌++◌, [], slice_get, IsTrue, IfOk, OnOk};
ghost use Rattle.std.specs.Option.{option_copied, option_map};
ghost use Rattle.std.specs.Map.Iter.{deref_pair};
ghost use Rattle.std.specs.Ordering.{nat_cmp};
ghost use Rattle.sg_pages.specs.Stored.{HasRisingKeys};
ghost use Rattle.sg_shape.specs.Sound.{IsSound};
ghost use Rattle.sg_plain.specs.Keys.{IsRising};
ghost use Rattle.sg_plain.specs.Rows.{AreRows, IsKeysWith, put, shape_at, without_key, without_keys};
ghost use Rattle.sg_plain.specs.Sat.{IsSoundTest, Sat};
ghost use Rattle.sg_plain.specs.Takes.{Takes};
ghost use Rattle.sg_copies.specs.Past.{rows_past};

use crate::shapes::SharedShape;
use sg_pages::Pages;
use sg_plain::{KeyList, PlainRows, Test};
use sg_shape::{Judge, Shape};
use std::alloc::{AllocError, Global};
use std::marker::Model;

/// Rows by rising key in an ordered store, and room for more. All their shapes are sound, and may be shared with other
/// stores. A look-up and a write compare a logarithmic number of keys.
#[derive(Drop)]
pub(crate) struct StoredRows {
    pages: Pages<u32, SharedShape>,
}

impl Model for StoredRows {
    ghost use Rattle.std.specs.Prelude.{ℕ};
    ghost use Rattle.sg_shape.specs.declared.shapes.Shape.{Shape};
    ghost use Rattle.sg_pages.specs.Stored.{Stored};
    ghost use Rattle.sg_plain.specs.Rows.{AreRows};

    ghost Value = { Stored ℕ Shape };

    ghost view = { λ it. it.pages };

    ghost invariant = { λ it. AreRows it.pages.pairs };
}

impl StoredRows {
    /// No rows and no room. It takes no memory, and keeps the allocator for `reserve`.
    pub fn new(alloc: Global) -> StoredRows
        ensures rows { result.pairs ≡ [] }
        ensures spare { result.spare ≡ 0 }
    {
        StoredRows {
            pages: Pages::new(alloc),
        }
    }

    /// Makes room for at least `more` new keys. `AllocError` is want of memory; the rows stay as they were in either
    /// case.
    pub fn reserve(&mut self, more: usize) -> Result<(), AllocError>
        ensures rows { self.new.pairs ≡ self.old.pairs }
        ensures spare { OnOk result (more ≤ self.new.spare) }
    {
        self.pages.reserve(more)
    }

    /// That the keys rise and all shapes are sound, for a proof that rests on it. It does nothing.
    #[inline(always)]
    pub fn in_order(&self)
        ensures { AreRows self.now.pairs }
    {
        let _pages = &self.pages;
    }

    /// Gives the row with this key this shape, new or in place of the one there. It takes no memory.
    pub fn put(&mut self, key: u32, shape: SharedShape)
        requires room { 1 ≤ self.old.spare }
        requires sound { IsSound shape }
        ensures rows { self.new.pairs ≡ put key shape self.old.pairs }
        ensures spare { self.old.spare ≤ self.new.spare + 1 }
    {
        self.pages.insert_reserved(key, shape);
    }

    /// Removes the row with this key, where there is one. It takes no memory, and no room is lost.
    pub fn remove(&mut self, key: u32)
        ensures rows { self.new.pairs ≡ without_key key self.old.pairs }
        ensures spare { self.old.spare ≤ self.new.spare }
    {
        self.pages.remove(&key);
    }

    /// Removes the rows with these keys. It takes no memory, and no room is lost.
    pub fn remove_all(&mut self, keys: &KeyList)
        ensures rows { self.new.pairs ≡ without_keys keys.now self.old.pairs }
        ensures spare { self.old.spare ≤ self.new.spare }
    {
        for key in keys.as_slice() {
            self.in_order();
            self.remove(*key);
        }
    }

    /// The shape of the row with this key: `None` exactly where there is none.
    pub fn shape_at(&self, key: u32) -> Option<&SharedShape>
        ensures { option_copied result ≡ shape_at self.now.pairs key }
    {
        self.pages.get(&key)
    }
}

impl StoredRows {
    /// Equal rows, in two stores that share the copies of their shapes. `AllocError` is want of memory.
    pub fn load_two(alloc: Global, rows: &PlainRows) -> Result<(StoredRows, StoredRows), AllocError>
        ensures { IfOk result (λ two. (two.0.pairs ≡ rows.now) × (two.1.pairs ≡ rows.now)) }
    {
        let all = rows.as_slice();
        let mut one = StoredRows::new(alloc);
        let mut other = StoredRows::new(alloc);
        one.reserve(all.len())?;
        other.reserve(all.len())?;
        for row in all {
            let shape = SharedShape::of(alloc, &row.1)?;
            let again = shape.again()?;
            one.put(row.0, shape);
            other.put(row.0, again);
        }
        Ok((one, other))
    }

    /// The keys of the rows that satisfy the test against a shape, rising: each row is tested. A bound of distances is
    /// at most 64,000,000, and the shape is sound. `AllocError` is want of memory.
    pub fn keys_with<J: Judge>(
        &self,
        alloc: Global,
        judge: &J,
        test: Test,
        shape: &Shape,
    ) -> Result<KeyList, AllocError>
        requires test { IsSoundTest test }
        requires sound { IsSound shape.now }
        ensures { IfOk result (IsKeysWith (λ row. Sat test row shape.now) self.now.pairs) }
    {
        self.in_order();
        let mut keys = KeyList::new(alloc);
        let mut last = None;
        while let Some((key, row)) = self.next_row(last) {
            take_row(alloc, judge, &mut keys, *key, row, test, shape)?;
            last = Some(*key);
        }
        Ok(keys)
    }

    /// The first row above this key, or of all.
    fn next_row(&self, last: Option<u32>) -> Option<(&u32, &SharedShape)>
        ensures first { option_map deref_pair result ≡ slice_get (rows_past last self.now.pairs) 0 }
        ensures rows { AreRows self.now.pairs }
        ensures rising { HasRisingKeys nat_cmp self.now.pairs }
    {
        match last {
            None => self.pages.at_or_after(&0),
            Some(key) => self.pages.after(&key),
        }
    }
}

/// Puts the row's key last, if the row satisfies the test.
fn take_row<J: Judge>(
    alloc: Global,
    judge: &J,
    keys: &mut KeyList,
    key: u32,
    row: &SharedShape,
    test: Test,
    shape: &Shape,
) -> Result<(), AllocError>
    requires row { IsSound row.now }
    requires test { IsSoundTest test }
    requires sound { IsSound shape.now }
    requires above { IsRising (keys.old ++ key ∷ []) }
    ensures { OnOk result (Takes (λ row. Sat test row shape.now) (key, row.now) keys.old keys.new) }
{
    if !is_sat(alloc, judge, test, row.get(), shape)? {
        return Ok(());
    }
    keys.push(key)?;
    Ok(())
}

fn is_sat<J: Judge>(
    alloc: Global,
    judge: &J,
    test: Test,
    row: &Shape,
    shape: &Shape,
) -> Result<bool, AllocError>
    requires row { IsSound row.now }
    requires test { IsSoundTest test }
    requires sound { IsSound shape.now }
    ensures { IfOk result (λ yes. IsTrue yes ↔ Sat test row.now shape.now) }
{
    match test {
        Test::Relate(pred) => judge.satisfies(alloc, row, shape, pred),
        Test::Near { bound, strict } => Ok(judge.near(row, shape, bound, strict)),
    }
}
