//! The cells of a table's rows: at each pair of a cell and a row's key the mark that is committed,
//! and the one that a session has written since and not committed yet.
//!
//! Memory is taken by reserving alone, so that no write and no end of a transaction can fail.
#![tactic(auto)]

ghost use Rattle.std.specs.Prelude.{◌≡◌, ◌+◌, ◌≤◌, ◌⊎◌, [], ℕ, Bool, true, not, cond, is_some, IsSome, IfSome, IfNone, IsOk, OnOk, None, Some};
ghost use Rattle.std.specs.Ordering.{nat_cmp, is_eq};
ghost use Rattle.std.specs.Option.{option_copied, option_map};
ghost use Rattle.std.specs.Map.{lookup, lookup_entry};
ghost use Rattle.std.specs.Map.Iter.{deref_pair};
ghost use Rattle.std.specs.BTreeMap.{is_at, insert_entry};
ghost use Rattle.sg_cells.specs.Cells as cells;
ghost use Rattle.sg_pages.specs.Stored.{HasRisingKeys, first_from, first_past};
ghost use Rattle.sg_versions.specs.Versions.{visible, fresh, kept_value, written, settled, change_at};
ghost use Rattle.sg_versions.specs.Writers.{writer_of};
ghost use Rattle.sg_cellrows.specs.CellTable.{cell_key_cmp, version_at, cell_key, is_past, IsLeast};
ghost use Rattle.sg_cellrows.specs.Nexts.{part_key_cmp, part_at, is_bare, is_bare_at, version_in, seen_in, is_behind, IsNextCell};

use sg_cells::{Cell, Key, Mark};
use sg_modes::Session;
use sg_versions::{Version, Versions, WritesEnd};
use std::alloc::{AllocError, Global};
use std::marker::Model;

/// Pairs of a cell and a row's key, by rising cell and then by rising row's key; at each the
/// committed mark, the session that has written it since and the mark that this session left; and
/// room for more pairs.
///
/// The pairs are kept by the row's key too, and there is room in both orders. A look-up compares a
/// logarithmic number of pairs. The end of a session's writes costs what it wrote.
// The pairs without any mark, as those that a row has come to and left since its last commit, stand in a part
// of their own in the order by rows, so that a search for a row's marks doesn't meet them. A pair is always in
// one of the two parts, and so the orders have as many pairs.
#[derive(Drop)]
pub struct CellRows {
    by_cell: Versions<(Cell, u32), Mark>,
    by_row: Versions<PartKey, Mark>,
}

/// Whether there is no mark at a pair, neither a committed one nor one that a session has written since, and
/// then the row's key and the cell. The pairs with a mark come first.
type PartKey = (bool, (u32, Cell));

impl Model for CellRows {
    ghost use Rattle.sg_cells.specs.declared.marks.Mark.{Mark};
    ghost use Rattle.sg_versions.specs.Versions.{Versioned};
    ghost use Rattle.sg_cellrows.specs.CellTable.{CellKey};
    ghost use Rattle.sg_cellrows.specs.Nexts.{IsMirrored, seen_as};

    ghost Value = { Versioned CellKey Mark };

    ghost view = { λ it. seen_as it.by_cell it.by_row };

    ghost invariant = { λ it. IsMirrored it.by_cell.rows it.by_row.rows };
}

impl CellRows {
    /// No pairs and no room. It takes no memory, and keeps the allocator for `reserve`.
    pub fn new(alloc: Global) -> CellRows
        ensures rows { result.rows ≡ [] }
        ensures spare { result.spare ≡ 0 }
    {
        CellRows {
            by_cell: Versions::new(alloc),
            by_row: Versions::new(alloc),
        }
    }

    /// Makes room for at least `more` new pairs, so that as many need no memory.
    ///
    /// `AllocError` is want of memory, and never comes where there is as much room. The rows stay as they
    /// were in either case, and no room that was there is lost.
    pub fn reserve(&mut self, more: usize) -> Result<(), AllocError>
        ensures rows { self.new.rows ≡ self.old.rows }
        ensures spare { OnOk result (more ≤ self.new.spare) }
        ensures kept { self.old.spare ≤ self.new.spare }
        ensures there { more ≤ self.old.spare → IsOk result }
    {
        self.by_cell.reserve(more)?;
        self.by_row.reserve(more)
    }

    /// That the pairs rise, for a proof that rests on it. It does nothing.
    #[inline(always)]
    pub fn rising(&self)
        ensures { HasRisingKeys cell_key_cmp self.now.rows }
    {
        self.by_cell.rising();
    }

    /// Whether the pair is there, with or without a mark.
    pub fn present(&self, key: (Cell, u32)) -> bool
        ensures present { result ≡ is_some (version_at self.now.rows key) }
        ensures rising { HasRisingKeys cell_key_cmp self.now.rows }
    {
        self.by_cell.get(&key).is_some()
    }

    /// The least pair above this one, or the end of the index where there is none.
    pub fn next_key(&self, key: (Cell, u32)) -> Key
        ensures next { result ≡ cell_key (first_past cell_key_cmp key self.now.rows) }
        ensures rising { HasRisingKeys cell_key_cmp self.now.rows }
    {
        match self.by_cell.after(&key) {
            None => Key::CellEnd,
            Some((next, _)) => Key::Cell(next.0, next.1),
        }
    }

    /// The least pair that isn't below this one, or the end of the index where there is none.
    pub fn first_at(&self, key: (Cell, u32)) -> Key
        ensures first { result ≡ cell_key (first_from cell_key_cmp key self.now.rows) }
        ensures rising { HasRisingKeys cell_key_cmp self.now.rows }
    {
        match self.by_cell.at_or_after(&key) {
            None => Key::CellEnd,
            Some((first, _)) => Key::Cell(first.0, first.1),
        }
    }

    /// What the session sees at the pair: the mark that it wrote itself, or else the committed one.
    /// `None` exactly where there is none.
    pub fn visible(&self, s: Session, key: (Cell, u32)) -> Option<&Mark>
        ensures { option_copied result ≡ visible s (version_at self.now.rows key) }
    {
        self.by_cell.visible(s, &key)
    }

    /// The session that has written at the pair and whose writes haven't ended; `None` where there
    /// is none, or no such pair.
    pub fn writer(&self, key: (Cell, u32)) -> Option<Session>
        ensures { result ≡ writer_of (version_at self.now.rows key) }
    {
        match self.by_cell.get(&key) {
            None => None,
            Some(version) => version.writer,
        }
    }

    /// Adds the pair with a committed mark. It takes no memory, and uses up at most one unit of spare.
    pub fn put_kept(&mut self, key: (Cell, u32), mark: Mark)
        requires absent { version_at self.old.rows key ≡ None }
        requires room { 1 ≤ self.old.spare }
        ensures rows { self.new.rows ≡ insert_entry cell_key_cmp self.old.rows key (kept_value mark) }
        ensures spare { self.old.spare ≤ self.new.spare + 1 }
    {
        let (cell, row) = key;
        self.by_cell.put_kept((cell, row), mark);
        self.by_row.put_kept((false, (row, cell)), mark);
    }

    /// Adds the pair without a mark for the session, which is its writer then. It takes no memory,
    /// and uses up at most one unit of spare.
    pub fn put_reserved(&mut self, s: Session, key: (Cell, u32))
        requires absent { version_at self.old.rows key ≡ None }
        requires room { 1 ≤ self.old.spare }
        ensures rows { self.new.rows ≡ insert_entry cell_key_cmp self.old.rows key (fresh s) }
        ensures spare { self.old.spare ≤ self.new.spare + 1 }
    {
        let (cell, row) = key;
        self.by_cell.put_reserved(s, (cell, row));
        self.by_row.put_reserved(s, (true, (row, cell)));
    }

    /// Writes at a pair for the session, which is its writer then; `None` leaves no mark there. No
    /// other session may be the writer. It takes no memory, and no room is lost.
    pub fn write(&mut self, s: Session, key: (Cell, u32), mark: Option<Mark>)
        requires present { IsSome (version_at self.old.rows key) }
        requires alone { (writer_of (version_at self.old.rows key) ≡ None) ⊎ (writer_of (version_at self.old.rows key) ≡ Some s) }
        ensures rows { self.new.rows ≡ change_at (is_at (cell_key_cmp key)) (written s mark) self.old.rows }
        ensures spare { self.old.spare ≤ self.new.spare }
    {
        let (cell, row) = key;
        let was_bare = is_bare(&self.by_cell, (cell, row));
        self.by_cell.write(s, (cell, row), mark);
        let is_bare = is_bare(&self.by_cell, (cell, row));
        if is_bare == was_bare {
            self.by_row.write(s, (is_bare, (row, cell)), mark);
        } else {
            move_pair(&mut self.by_row, s, (row, cell), is_bare, mark);
        }
    }

    /// Commits all that the session wrote: its marks are the committed ones then, and the pairs at
    /// which it left none are gone. It takes no memory, and no room is lost.
    pub fn keep(&mut self, s: Session)
        ensures rows { self.new.rows ≡ settled WritesEnd.Keep s self.old.rows }
        ensures spare { self.old.spare ≤ self.new.spare }
    {
        self.by_cell.keep(s);
        self.by_row.keep(s);
    }

    /// Drops all that the session wrote: the committed marks stay, and the pairs at which there is
    /// none are gone. It takes no memory, and no room is lost.
    pub fn undo(&mut self, s: Session)
        ensures rows { self.new.rows ≡ settled WritesEnd.Undo s self.old.rows }
        ensures spare { self.old.spare ≤ self.new.spare }
    {
        self.by_cell.undo(s);
        self.by_row.undo(s);
    }

    /// The least cell above the given one, or of all cells where none is given, at which the
    /// session sees a mark of this row, and that mark. `None` exactly where there is no such cell.
    ///
    /// It goes over the row's pairs between these cells at which there is a mark that the session doesn't see:
    /// the committed ones that it has overwritten, and those that another has written.
    pub fn cell_of(&self, s: Session, row: u32, above: Option<Cell>) -> Option<(Cell, Mark)>
        ensures least { IfSome result (IsLeast (λ c. visible s (version_at self.now.rows (c, row))) above) }
        ensures none { IfNone result ((c : cells.Cell) → is_past above c ≡ true → visible s (version_at self.now.rows (c, row)) ≡ None) }
    {
        seen_cell(&self.by_row, s, row, above)
    }
}

// Whether there is no mark at the pair.
fn is_bare(rows: &Versions<(Cell, u32), Mark>, key: (Cell, u32)) -> bool
    ensures { result ≡ is_bare_at (version_at rows.now.rows key) }
{
    match rows.get(&key) {
        None => true,
        Some(version) => version.committed.is_none() && version.live.is_none(),
    }
}

// Moves a pair that has no committed mark into the other part of the order by rows, with what the session
// writes there.
fn move_pair(
    rows: &mut Versions<PartKey, Mark>,
    s: Session,
    key: (u32, Cell),
    to: bool,
    mark: Option<Mark>,
)
    requires present { IsSome (part_at rows.old.rows (not to) key) }
    requires alone { (writer_of (part_at rows.old.rows (not to) key) ≡ None) ⊎ (writer_of (part_at rows.old.rows (not to) key) ≡ Some s) }
    requires absent { part_at rows.old.rows to key ≡ None }
    ensures each { (k : Bool × (ℕ × cells.Cell)) → lookup (is_at (part_key_cmp k)) rows.new.rows ≡ cond (is_eq (part_key_cmp (to, key) k)) (Some (written s mark (fresh s))) (cond (is_eq (part_key_cmp (not to, key) k)) None (lookup (is_at (part_key_cmp k)) rows.old.rows)) }
    ensures spare { rows.old.spare ≤ rows.new.spare }
{
    let (row, cell) = key;
    rows.write(s, (!to, (row, cell)), None);
    rows.remove(s, &(!to, (row, cell)));
    rows.put_reserved(s, (to, (row, cell)));
    rows.write(s, (to, (row, cell)), mark);
}

// The least cell of the row above the given one at which the session sees a mark.
fn seen_cell(
    rows: &Versions<PartKey, Mark>,
    s: Session,
    row: u32,
    above: Option<Cell>,
) -> Option<(Cell, Mark)>
    ensures least { IfSome result (IsLeast (seen_in rows.now.rows s row) above) }
    ensures none { IfNone result ((c : cells.Cell) → is_past above c ≡ true → seen_in rows.now.rows s row c ≡ None) }
{
    let mut last = above;
    while let Some((cell, version)) = next_cell(rows, row, last) {
        if let Some(mark) = version.seen(s) {
            return Some((cell, *mark));
        }
        last = Some(cell);
    }
    None
}

// The row's next cell above the given one at which there is a mark, of any session.
fn next_cell(
    rows: &Versions<PartKey, Mark>,
    row: u32,
    above: Option<Cell>,
) -> Option<(Cell, &Version<Mark>)>
    ensures next { IfSome result (λ found. IsNextCell rows.now.rows row above (found.0, found.1.now)) }
    ensures none { IfNone result ((c : cells.Cell) → is_past above c ≡ true → version_in rows.now.rows (row, c) ≡ None) }
{
    match first_behind(rows, row, above) {
        None => None,
        Some((key, version)) => {
            if !key.0 && key.1.0 == row {
                Some((key.1.1, version))
            } else {
                None
            }
        }
    }
}

// The first pair behind the cell of the row, of those with a mark, or else the first without one.
fn first_behind(
    rows: &Versions<PartKey, Mark>,
    row: u32,
    above: Option<Cell>,
) -> Option<(&PartKey, &Version<Mark>)>
    ensures first { option_map deref_pair result ≡ lookup_entry (is_behind row above) rows.now.rows }
    ensures rising { HasRisingKeys part_key_cmp rows.now.rows }
{
    match above {
        None => rows.at_or_after(&(false, (row, Cell::outside()))),
        Some(cell) => rows.after(&(false, (row, cell))),
    }
}

#[cfg(test)]
mod tests;
