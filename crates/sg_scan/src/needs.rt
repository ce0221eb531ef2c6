ghost use Rattle.std.specs.Prelude.{◌≡◌, ◌∷◌, [], ◌++◌, is_some, map, slice_get, IfSome, None};
ghost use Rattle.std.specs.List.{flat_map};
ghost use Rattle.std.specs.Option.{option_map};
ghost use Rattle.sg_cells.specs.declared.keys.Key.TheVariants as key;
ghost use Rattle.sg_scan.specs.declared.searches.Search.{Search};
ghost use Rattle.sg_versions.specs.Versions.{visible};
ghost use Rattle.sg_cellrows.specs.CellTable.{version_at};
ghost use Rattle.sg_trace.specs.Needs.{Lock};
ghost use Rattle.sg_stores.specs.Held.{first_unheld, lock_need};
ghost use Rattle.sg_scan.specs.Cursors.{locking_of, pair_needs, range_whole, needs_upto, cells_behind, IsInside, IsOrdered, IsPlace, IsThere, IsRowThere, rows_until, table_need, first_of_row, locking_for};

use crate::lists::next_row;
use crate::searches::CellSearch;
use crate::walks::{key_behind, next_in};
use sg_cellrows::CellRows;
use sg_cells::{Cell, Key};
use sg_locks::Locks;
use sg_modes::{Mode, Session};
use sg_plain::Statement;
use sg_rows::Rows;
use sg_stores::is_met;

/// How a search locks: the keys of its ranges, and the rows that it sees there, if it locks them.
#[derive(Clone, Copy, PartialEq, Eq, Debug)]
pub(crate) struct Modes {
    /// On each key of a range, and on the first one past it.
    pub range: Mode,
    /// On each row whose cell it sees in a range.
    pub row: Option<Mode>,
}

/// How far a search has come.
#[derive(Clone, Copy, Debug)]
pub(crate) struct Place {
    /// How many ranges lie behind it.
    pub range: usize,
    /// In the range at hand, the last pair behind it.
    pub cell: Option<(Cell, u32)>,
    /// Without an index, the last row behind it.
    pub row: Option<u32>,
}

/// How the statement locks what it reads.
pub(crate) fn modes_of(statement: &Statement) -> Modes
    ensures { locking_of result ≡ locking_for statement.now }
{
    match statement {
        Statement::Filter(_) => Modes {
            range: Mode::RangeSS,
            row: None,
        },
        Statement::DeleteWhere(_) => Modes {
            range: Mode::RangeSU,
            row: Some(Mode::U),
        },
        _ => Modes {
            range: Mode::RangeSS,
            row: Some(Mode::S),
        },
    }
}

/// Of a get: the row, or the gap in which it would stand.
pub(crate) fn need_of_row(
    key: u32,
    s: Session,
    rows: &Rows,
    locks: &Locks<Key>,
) -> Option<(Key, Mode)>
    ensures { option_map lock_need result ≡ first_unheld locks.now.grants s (first_of_row rows.now.rows key ∷ []) }
{
    if rows.present(key) {
        unmet(locks, s, Key::Row(key), Mode::S)
    } else {
        unmet(locks, s, rows.next_key(key), Mode::RangeSS)
    }
}

/// Of a table without an index: each row, and the end of the rows.
pub(crate) fn need_of_table(
    above: &mut Option<u32>,
    range: Mode,
    s: Session,
    rows: &Rows,
    locks: &Locks<Key>,
) -> Option<(Key, Mode)>
    requires there { IsRowThere above.old rows.now.rows }
    requires met { first_unheld locks.now.grants s (map (table_need range) (rows_until above.old rows.now.rows)) ≡ None }
    ensures need { option_map lock_need result ≡ first_unheld locks.now.grants s (map (table_need range) rows.now.rows ++ Lock key.RowEnd range ∷ []) }
    ensures there { IsRowThere above.new rows.now.rows }
    ensures passed { first_unheld locks.now.grants s (map (table_need range) (rows_until above.new rows.now.rows)) ≡ None }
{
    while let Some(key) = next_row(rows, *above) {
        let need = unmet(locks, s, Key::Row(key), range);
        if need.is_some() {
            return need;
        }
        *above = Some(key);
    }
    unmet(locks, s, Key::RowEnd, range)
}

impl CellSearch {
    /// Of all ranges, one after another.
    pub(crate) fn need(
        &self,
        place: &mut Place,
        modes: &Modes,
        s: Session,
        cells: &CellRows,
        locks: &Locks<Key>,
    ) -> Option<(Key, Mode)>
        requires place { IsPlace (Search.Cells self.now) place.old }
        requires there { IfSome (slice_get self.now.ranges place.old.range) (λ _. IsThere place.old.cell cells.now.rows) }
        requires met { first_unheld locks.now.grants s (cells_behind (locking_of modes.now) s self.now.ranges place.old.range place.old.cell cells.now.rows) ≡ None }
        ensures need { option_map lock_need result ≡ first_unheld locks.now.grants s (flat_map (range_whole (locking_of modes.now) s cells.now.rows) self.now.ranges) }
        ensures place { IsPlace (Search.Cells self.now) place.new }
        ensures there { IfSome (slice_get self.now.ranges place.new.range) (λ _. IsThere place.new.cell cells.now.rows) }
        ensures met { first_unheld locks.now.grants s (cells_behind (locking_of modes.now) s self.now.ranges place.new.range place.new.cell cells.now.rows) ≡ None }
    {
        let _count = self.ranges.len();
        while let Some((first, last)) = self.ranges.at(place.range) {
            let need = need_in(first, last, &mut place.cell, modes, s, cells, locks);
            if need.is_some() {
                return need;
            }
            place.range += 1;
            place.cell = None;
        }
        None
    }
}

/// Of the range from the first cell to the last: each of its pairs, and the first past it.
fn need_in(
    first: Cell,
    last: Cell,
    above: &mut Option<(Cell, u32)>,
    modes: &Modes,
    s: Session,
    cells: &CellRows,
    locks: &Locks<Key>,
) -> Option<(Key, Mode)>
    requires ordered { IsOrdered (first, last) }
    requires inside { IsInside (first, last) above.old }
    requires there { IsThere above.old cells.now.rows }
    requires met { first_unheld locks.now.grants s (needs_upto (locking_of modes.now) s first last above.old cells.now.rows) ≡ None }
    ensures need { option_map lock_need result ≡ first_unheld locks.now.grants s (range_whole (locking_of modes.now) s cells.now.rows (first, last)) }
    ensures inside { IsInside (first, last) above.new }
    ensures there { IsThere above.new cells.now.rows }
    ensures met { first_unheld locks.now.grants s (needs_upto (locking_of modes.now) s first last above.new cells.now.rows) ≡ None }
{
    while let Some((cell, row)) = next_in(cells, first, last, *above) {
        let need = need_at(cell, row, modes, s, cells, locks);
        if need.is_some() {
            return need;
        }
        *above = Some((cell, row));
    }
    unmet(locks, s, key_behind(cells, first, *above), modes.range)
}

/// Of one pair: itself, and its row where the session sees the mark.
fn need_at(
    cell: Cell,
    row: u32,
    modes: &Modes,
    s: Session,
    cells: &CellRows,
    locks: &Locks<Key>,
) -> Option<(Key, Mode)>
    ensures { option_map lock_need result ≡ first_unheld locks.now.grants s (pair_needs (locking_of modes.now) (cell, row) (is_some (visible s (version_at cells.now.rows (cell, row))))) }
{
    let need = unmet(locks, s, Key::Cell(cell, row), modes.range);
    if need.is_some() {
        return need;
    }
    if cells.visible(s, (cell, row)).is_none() {
        return None;
    }
    match modes.row {
        None => None,
        Some(mode) => unmet(locks, s, Key::Row(row), mode),
    }
}

/// The lock, where the session hasn't it.
fn unmet(locks: &Locks<Key>, s: Session, key: Key, mode: Mode) -> Option<(Key, Mode)>
    ensures { option_map lock_need result ≡ first_unheld locks.now.grants s (Lock key mode ∷ []) }
{
    if is_met(locks, s, &key, mode) {
        None
    } else {
        Some((key, mode))
    }
}
