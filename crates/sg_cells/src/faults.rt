use thiserror::Error;

/// Why there is no such grid.
#[derive(Clone, Copy, Debug, Drop, PartialEq, Eq, Error)]
pub enum GridFault {
    /// A coordinate is below -16,000,000 or above 16,000,000.
    #[error("a coordinate of the box is outside the coordinate limits")]
    CoordOut,
    /// The box has no width or no height.
    #[error("the box is empty")]
    BoxEmpty,
    /// The number of cells per object isn't 1 to 8192.
    #[error("the number of cells per object is not 1 to 8192")]
    CellsOut,
}
