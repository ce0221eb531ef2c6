ghost use Rattle.std.specs.Prelude.{◌≡◌, ◌<◌, [], ◌∷◌, ◌++◌, length, take, slice_get, option_map, ◌↔◌, All, IsTrue, Some, None, IsSome, IfOk, IfErr, OnOk, OnErr};
ghost use Rattle.std.specs.Option.{option_copied};
ghost use Rattle.sg_shape.specs.Sound.{IsSound};
ghost use Rattle.sg_plain.specs.Keys.{IsRising};
ghost use Rattle.sg_plain.specs.Places.{IsAt, IsGapFor, key_at};
ghost use Rattle.sg_plain.specs.Rows.{AreRows, keys_of, put, without_key, shape_at, without_keys};

use sg_shape::Shape;
use std::alloc::{AllocError, Global};
use std::marker::Model;

/// Rows by rising key. All their shapes are sound.
#[derive(Debug, Drop)]
pub struct PlainRows {
    rows: Vec<(u32, Shape)>,
}

impl Model for PlainRows {
    ghost use Rattle.std.specs.Prelude.{List, ℕ};
    ghost use Rattle.sg_shape.specs.declared.shapes.Shape.{Shape};
    ghost use Rattle.sg_plain.specs.Rows.{AreRows};

    ghost Value = { List (ℕ × Shape) };

    ghost view = { λ table. table.rows.items };

    ghost invariant = { λ table. AreRows table.rows.items };
}

impl PlainRows {
    /// No rows. It takes no memory, and keeps the allocator for its own growth.
    pub fn new(alloc: Global) -> PlainRows
        ensures { result ≡ [] }
    {
        PlainRows {
            rows: Vec::new(alloc),
        }
    }

    /// Puts a row last, whose key has to be above all others. Without memory for it the rows stay as they were,
    /// and the shape is given up.
    pub fn push(&mut self, key: u32, shape: Shape) -> Result<(), AllocError>
        requires above { IsRising (keys_of self.old ++ key ∷ []) }
        requires sound { IsSound shape }
        ensures ok { OnOk result (self.new ≡ self.old ++ (key, shape) ∷ []) }
        ensures err { OnErr result (self.new ≡ self.old) }
    {
        self.rows.push((key, shape))?;
        Ok(())
    }

    /// How many rows there are.
    pub fn len(&self) -> usize
        ensures { result ≡ length self.now }
    {
        self.rows.len()
    }

    /// The row at a place, counted from 0: `None` exactly past the end.
    pub fn at(&self, place: usize) -> Option<(u32, &Shape)>
        ensures { option_map (λ row. (row.0, row.1.now)) result ≡ slice_get self.now place }
    {
        match self.rows.get(place) {
            None => None,
            Some(row) => Some((row.0, &row.1)),
        }
    }

    /// All rows, in order.
    pub fn as_slice(&self) -> &[(u32, Shape)]
        ensures all { result.now ≡ self.now }
        ensures rows { AreRows self.now }
    {
        self.rows.as_slice()
    }

    /// That the keys rise and all shapes are sound, for a proof that rests on it. It does nothing.
    #[inline(always)]
    pub fn in_order(&self)
        ensures { AreRows self.now }
    {
        let _rows = &self.rows;
    }

    /// The shape at a key: `None` exactly where no row has it.
    pub fn shape_at(&self, key: u32) -> Option<&Shape>
        ensures { option_copied result ≡ shape_at self.now key }
    {
        match self.search(key) {
            Ok(place) => Some(&self.rows[place].1),
            Err(_) => None,
        }
    }

    /// Equal rows.
    pub fn copy(&self, alloc: Global) -> Result<PlainRows, AllocError>
        ensures { IfOk result (λ rows. rows ≡ self.now) }
    {
        let mut copy = PlainRows::new(alloc);
        for row in self.as_slice() {
            copy.push(row.0, row.1.copy(alloc)?)?;
        }
        Ok(copy)
    }

    /// Where the key is, or where it would go.
    pub(crate) fn search(&self, key: u32) -> Result<usize, usize>
        ensures found { IfOk result (IsAt self.now key) }
        ensures held { OnOk result (IsSome (shape_at self.now key)) }
        ensures gap { IfErr result (IsGapFor self.now key) }
        ensures absent { OnErr result (shape_at self.now key ≡ None) }
    {
        self.rows.binary_search_by_key(&key, |row| row.0)
    }

    /// Adds a row in the gap for its key.
    pub(crate) fn insert_at(
        &mut self,
        place: usize,
        key: u32,
        shape: Shape,
    ) -> Result<(), AllocError>
        requires gap { IsGapFor self.old key place }
        requires sound { IsSound shape }
        ensures ok { OnOk result (self.new ≡ put key shape self.old) }
        ensures err { OnErr result (self.new ≡ self.old) }
    {
        self.rows.insert(place, (key, shape))?;
        Ok(())
    }

    /// Gives the row at a place another shape.
    pub(crate) fn replace_at(&mut self, place: usize, shape: Shape)
        requires within { place < length self.old }
        requires sound { IsSound shape }
        ensures { self.new ≡ put (key_at self.old place) shape self.old }
    {
        self.rows[place].1 = shape;
    }

    /// Removes the row at a place.
    pub(crate) fn remove_at(&mut self, place: usize)
        requires { place < length self.old }
        ensures { self.new ≡ without_key (key_at self.old place) self.old }
    {
        self.rows.remove(place);
    }

    /// Removes the rows at these keys, in one pass.
    pub(crate) fn remove_all(&mut self, keys: &[u32])
        requires rising { IsRising keys.now }
        requires held { All (λ key. IsSome (shape_at self.old key)) keys.now }
        ensures { self.new ≡ without_keys keys.now self.old }
    {
        let kept = keep_others(self.rows.as_mut_slice(), keys);
        self.rows.truncate(kept);
    }
}

/// Moves the rows that aren't at these keys to the front, in order, and answers how many they are.
fn keep_others(rows: &mut [(u32, Shape)], keys: &[u32]) -> usize
    requires rows { AreRows rows.old }
    requires rising { IsRising keys.now }
    requires held { All (λ key. IsSome (shape_at rows.old key)) keys.now }
    ensures { take result rows.new ≡ without_keys keys.now rows.old }
{
    let mut next = 0;
    let mut kept = 0;
    for place in 0..rows.len() {
        if is_at(keys, next, rows[place].0) {
            next += 1;
        } else {
            rows.swap(kept, place);
            kept += 1;
        }
    }
    kept
}

/// Whether the key stands at this place.
fn is_at(keys: &[u32], place: usize, key: u32) -> bool
    ensures { IsTrue result ↔ (slice_get keys.now place ≡ Some key) }
{
    match keys.get(place) {
        Some(other) => *other == key,
        None => false,
    }
}
