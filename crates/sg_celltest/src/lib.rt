//! The judge of shapes and cells by the edges that reach a cell and one point of it.
//!
//! Along a segment that no edge of closed rings meets, the parity of the edges on the right stays the same. So where
//! no edge meets a cell, its low corner tells of all its points; and where none meets what lies within its sides, the
//! middle tells of the whole cell. Where an edge goes through the inside, points beside it are tried; if these are
//! points of the shape, the exact matrix of the cell with all its edges is asked. Only where the shape missed points of
//! these edges alone would the cell be taken in pieces: the open box, its sides without their ends, and its corners, as
//! far as they belong to the cell. Each is the inside of a polygon, a line or a point, so that the matrix of that shape
//! and the shape asked about tells whether some point of the piece is none of the shape.
#![tactic(auto)]

mod answers;
mod columns;
mod edges;
mod judge;
mod leaving;
mod pieces;
mod spans;

pub use judge::CellTest;

#[cfg(test)]
mod tests;
