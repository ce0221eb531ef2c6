use crate::grid::Grid;

/// How a table is searched.
#[derive(Clone, Copy, Debug)]
pub struct Settings {
    /// The index's grid. Without one there is no index.
    pub grid: Option<Grid>,
    /// How many cells a query may have: 1 to 8192 where it is used.
    pub window: u32,
}
