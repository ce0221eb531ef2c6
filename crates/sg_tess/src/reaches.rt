ghost use Rattle.std.specs.Prelude.{◌≡◌, ◌≤◌, ◌<◌, ◌*◌, length, IsTrue};
ghost use Rattle.sg_hilbert.specs.Curve.{IsSide, doublings, two_to, spot_at};
ghost use Rattle.sg_cells.specs.Cells.{IsPath, split_of};
ghost use Rattle.sg_cells.specs.Grids.{IsBlock};
ghost use Rattle.sg_tess.specs.Sights.{IsSight, IsReach, Far, is_within};

use crate::sights::{Sight, is_near_across, is_near_up, side_under};
use sg_cells::{Block, Cell};
use sg_hilbert::{place_of, spot_of};
use sg_shape::CellJudge;

/// Columns and rows of the children of a cell, each from one to below another.
#[derive(Clone, Copy)]
pub(crate) struct Reach {
    pub left: u8,
    pub right: u8,
    pub bottom: u8,
    pub top: u8,
}

impl Reach {
    /// Whether the child at the place, among those of a side, is in one of the columns and in one of the rows.
    pub fn has(&self, side: u8, place: u8) -> bool
        requires side { IsSide side }
        requires place { place < side * side }
        ensures { result ≡ is_within self.now (spot_at (doublings side) place) }
    {
        let (column, row) = spot_of(side, place);
        self.left <= column && column < self.right && self.bottom <= row && row < self.top
    }
}

impl<'a, C: CellJudge> Sight<'a, C> {
    /// Columns and rows so that each other child of the cell lies away from the bounds.
    pub fn reach(&self, parent: Cell, block: Block) -> Reach
        requires sight { IsSight self.now.grid.now self.now.shape.now self.now.bounds }
        requires path { IsPath self.now.grid.now.sides parent }
        requires level { length parent < length self.now.grid.now.sides }
        requires block { IsBlock self.now.grid.now parent block }
        ensures { IsReach self.now.grid.now parent self.now.bounds result }
    {
        let left = self.left_in(parent, block);
        let bottom = self.bottom_in(parent, block);
        Reach {
            left,
            right: self.right_in(parent, block, left),
            bottom,
            top: self.top_in(parent, block, bottom),
        }
    }

    /// A column with none on its left that has a common place with the bounds.
    fn left_in(&self, parent: Cell, block: Block) -> u8
        requires sight { IsSight self.now.grid.now self.now.shape.now self.now.bounds }
        requires path { IsPath self.now.grid.now.sides parent }
        requires level { length parent < length self.now.grid.now.sides }
        requires block { IsBlock self.now.grid.now parent block }
        ensures { Far self.now.grid.now parent self.now.bounds (λ s. s.0 < result) }
    {
        let side = side_under(self.grid, parent);
        let mut left = 0;
        while left < side && self.is_far_across(parent, block, left) {
            left += 1;
        }
        left
    }

    /// A column so that neither it nor any on its right has a common place with the bounds. It isn't on the left of
    /// the one given.
    fn right_in(&self, parent: Cell, block: Block, left: u8) -> u8
        requires sight { IsSight self.now.grid.now self.now.shape.now self.now.bounds }
        requires path { IsPath self.now.grid.now.sides parent }
        requires level { length parent < length self.now.grid.now.sides }
        requires block { IsBlock self.now.grid.now parent block }
        ensures { Far self.now.grid.now parent self.now.bounds (λ s. result ≤ s.0) }
    {
        let mut right = side_under(self.grid, parent);
        while left < right && self.is_far_across(parent, block, right - 1) {
            right -= 1;
        }
        right
    }

    /// A row with none below it that has a common place with the bounds.
    fn bottom_in(&self, parent: Cell, block: Block) -> u8
        requires sight { IsSight self.now.grid.now self.now.shape.now self.now.bounds }
        requires path { IsPath self.now.grid.now.sides parent }
        requires level { length parent < length self.now.grid.now.sides }
        requires block { IsBlock self.now.grid.now parent block }
        ensures { Far self.now.grid.now parent self.now.bounds (λ s. s.1 < result) }
    {
        let side = side_under(self.grid, parent);
        let mut bottom = 0;
        while bottom < side && self.is_far_up(parent, block, bottom) {
            bottom += 1;
        }
        bottom
    }

    /// A row so that neither it nor any above it has a common place with the bounds. It isn't below the one given.
    fn top_in(&self, parent: Cell, block: Block, bottom: u8) -> u8
        requires sight { IsSight self.now.grid.now self.now.shape.now self.now.bounds }
        requires path { IsPath self.now.grid.now.sides parent }
        requires level { length parent < length self.now.grid.now.sides }
        requires block { IsBlock self.now.grid.now parent block }
        ensures { Far self.now.grid.now parent self.now.bounds (λ s. result ≤ s.1) }
    {
        let mut top = side_under(self.grid, parent);
        while bottom < top && self.is_far_up(parent, block, top - 1) {
            top -= 1;
        }
        top
    }

    /// Whether the children in the column lie left or right of the bounds, by the box of the lowest of them.
    fn is_far_across(&self, parent: Cell, block: Block, column: u8) -> bool
        requires sight { IsSight self.now.grid.now self.now.shape.now self.now.bounds }
        requires path { IsPath self.now.grid.now.sides parent }
        requires level { length parent < length self.now.grid.now.sides }
        requires block { IsBlock self.now.grid.now parent block }
        requires column { column < two_to (split_of self.now.grid.now.sides parent) }
        ensures { IsTrue result → Far self.now.grid.now parent self.now.bounds (λ s. s.0 ≡ column) }
    {
        let side = side_under(self.grid, parent);
        let lowest = place_of(side, column, 0);
        match self.grid.child_box(parent, block, lowest) {
            None => false,
            Some(found) => !is_near_across(&found, &self.bounds),
        }
    }

    /// Whether the children in the row lie below or above the bounds, by the box of the first of them.
    fn is_far_up(&self, parent: Cell, block: Block, row: u8) -> bool
        requires sight { IsSight self.now.grid.now self.now.shape.now self.now.bounds }
        requires path { IsPath self.now.grid.now.sides parent }
        requires level { length parent < length self.now.grid.now.sides }
        requires block { IsBlock self.now.grid.now parent block }
        requires row { row < two_to (split_of self.now.grid.now.sides parent) }
        ensures { IsTrue result → Far self.now.grid.now parent self.now.bounds (λ s. s.1 ≡ row) }
    {
        let side = side_under(self.grid, parent);
        let first = place_of(side, 0, row);
        match self.grid.child_box(parent, block, first) {
            None => false,
            Some(found) => !is_near_up(&found, &self.bounds),
        }
    }
}
