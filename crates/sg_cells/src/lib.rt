//! Cells of a spatial grid: four or eight levels of them over a box, their ids, the cells of shapes, and the ranges in
//! which a query looks for cells (SQL Server documentation, Spatial Indexes Overview). The calls make grids,
//! cells and lists of cells; the laws of the definitions are stated by calls that do nothing.
//!
//! Level k has as many columns and rows as the product of the sides of levels 1 to k. Edges are rounded down.
//! A cell has its low edges and not its high ones, save for the last column and row, which have the box's high
//! edges. Cell 0 has all points outside the closed box.
#![tactic(auto)]

mod blocks;
mod bounds;
mod cell;
mod density;
mod edges;
mod faults;
mod grid;
mod keys;
mod laws;
mod levels;
mod lists;
mod marks;
mod settings;

pub use blocks::Block;
pub use cell::Cell;
pub use density::Density;
pub use faults::GridFault;
pub use grid::Grid;
pub use keys::Key;
pub use laws::{cell_laws, order_laws, query_laws, range_laws, tess_laws};
pub use lists::CellList;
pub use marks::Mark;
pub use settings::Settings;

#[cfg(test)]
mod tests;
