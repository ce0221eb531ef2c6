use crate::cell::Cell;

/// What is locked: rows by their keys and the end of the table, and cells of rows and the end of the index.
/// Keys are ordered as written here, then by their fields.
#[derive(Clone, Copy, Debug, PartialEq, Eq, PartialOrd, Ord)]
pub enum Key {
    /// The row with a key.
    Row(u32),
    /// Behind all rows.
    RowEnd,
    /// A cell of the row with a key.
    Cell(Cell, u32),
    /// Behind all cells of rows.
    CellEnd,
}
