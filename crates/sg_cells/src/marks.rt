/// Whether a shape covers a cell that it meets.
#[derive(Clone, Copy, Debug, Default, PartialEq, Eq)]
pub enum Mark {
    /// Some point of the cell is no point of the shape, or the cell is cell 0.
    #[default]
    Part,
    /// Each point of the cell is a point of the shape.
    Cover,
}
