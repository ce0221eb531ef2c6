ghost use Rattle.std.specs.Prelude.{◌≡◌, ◌&&◌, ◌≤◌, ◌<◌, ◌*◌, ◌++◌, ◌∷◌, [], length, IfOk, MatchOption};
ghost use Rattle.sg_shape.specs.Boxes.{IsCellBox};
ghost use Rattle.sg_shape.specs.Sound.{IsSound};
ghost use Rattle.sg_nearby.specs.Nearby.{SameIn};
ghost use Rattle.sg_hilbert.specs.Curve.{IsSide, doublings, four_to, two_to};
ghost use Rattle.sg_cells.specs.Cells.{IsGrid, IsPath, box_of, split_of};
ghost use Rattle.sg_cells.specs.Grids.{CanSplit, IsBlock};
ghost use Rattle.sg_cells.specs.Tess.{look_at, kids};
ghost use Rattle.sg_plane.specs.Decisions.{meets_box, covers_box};
ghost use Rattle.sg_tess.specs.Sights.{IsReach, IsSight, mark_by, overlaps, is_near};

use crate::reaches::Reach;
use crate::sizes::has_many;
use sg_cells::{Block, Cell, Grid, Mark};
use sg_nearby::nearby;
use sg_shape::{Bounds, CellBox, CellJudge, Shape};
use std::alloc::{AllocError, Global};

/// A shape with points, its bounds, and the grid and the judge by which it is seen.
#[derive(Drop)]
pub(crate) struct Sight<'a, C> {
    pub judge: &'a C,
    pub grid: &'a Grid,
    pub shape: &'a Shape,
    pub bounds: Bounds,
}

impl<'a, C: CellJudge> Sight<'a, C> {
    /// Whether the shape meets the box.
    fn meets(&self, alloc: Global, found: &CellBox) -> Result<bool, AllocError>
        requires sight { IsSight self.now.grid.now self.now.shape.now self.now.bounds }
        requires sides { IsCellBox found.now }
        ensures { IfOk result (λ met. met ≡ meets_box self.now.shape.now found.now) }
    {
        if is_near(found, &self.bounds) {
            self.judge.meets(alloc, self.shape, found)
        } else {
            Ok(false)
        }
    }

    /// Whether the shape covers the box.
    fn covers(&self, alloc: Global, found: &CellBox) -> Result<bool, AllocError>
        requires sight { IsSight self.now.grid.now self.now.shape.now self.now.bounds }
        requires sides { IsCellBox found.now }
        ensures { IfOk result (λ covered. covered ≡ covers_box self.now.shape.now found.now) }
    {
        self.judge.covers(alloc, self.shape, found)
    }

    /// The mark of a box, where the shape meets it.
    fn mark_in(&self, alloc: Global, found: &CellBox) -> Result<Option<Mark>, AllocError>
        requires sight { IsSight self.now.grid.now self.now.shape.now self.now.bounds }
        requires sides { IsCellBox found.now }
        ensures { IfOk result (λ mark. mark ≡ mark_by (look_at self.now.shape.now) found.now) }
    {
        if !self.meets(alloc, found)? {
            return Ok(None);
        }
        if self.covers(alloc, found)? {
            Ok(Some(Mark::Cover))
        } else {
            Ok(Some(Mark::Part))
        }
    }

    /// The mark of the child at a place, where the shape meets it.
    fn mark_of(
        &self,
        alloc: Global,
        parent: Cell,
        block: Block,
        place: u8,
    ) -> Result<Option<Mark>, AllocError>
        requires sight { IsSight self.now.grid.now self.now.shape.now self.now.bounds }
        requires path { IsPath self.now.grid.now.sides parent }
        requires level { length parent < length self.now.grid.now.sides }
        requires block { IsBlock self.now.grid.now parent block }
        requires place { place < four_to (split_of self.now.grid.now.sides parent) }
        ensures { IfOk result (λ mark. mark ≡ mark_by (look_at self.now.shape.now) (box_of self.now.grid.now (parent ++ place ∷ []))) }
    {
        match self.grid.child_box(parent, block, place) {
            None => Ok(None),
            Some(found) => self.mark_in(alloc, &found),
        }
    }

    /// The children that the shape meets, if there are at most `room`; of cell 0, which stands for the whole box,
    /// the cells of level 1. Of many spots only those are looked at that matter near the parent.
    pub fn kids_within(
        &self,
        alloc: Global,
        parent: Cell,
        room: usize,
    ) -> Result<Option<Vec<(Cell, Mark)>>, AllocError>
        requires sight { IsSight self.now.grid.now self.now.shape.now self.now.bounds }
        requires path { IsPath self.now.grid.now.sides parent }
        requires level { length parent < length self.now.grid.now.sides }
        ensures { IfOk result (λ list. MatchOption list (room < length (kids self.now.grid.now (look_at self.now.shape.now) parent)) (λ entries. (entries.items ≡ kids self.now.grid.now (look_at self.now.shape.now) parent) × (length entries.items ≤ room))) }
    {
        match self.grid.box_of(parent) {
            Some(found) if has_many(self.shape) => self.kids_near(alloc, parent, room, &found),
            _ => self.kids_among(alloc, parent, room),
        }
    }

    /// The same by the shape as it is near the parent, which has this box.
    fn kids_near(
        &self,
        alloc: Global,
        parent: Cell,
        room: usize,
        found: &CellBox,
    ) -> Result<Option<Vec<(Cell, Mark)>>, AllocError>
        requires sight { IsSight self.now.grid.now self.now.shape.now self.now.bounds }
        requires path { IsPath self.now.grid.now.sides parent }
        requires level { length parent < length self.now.grid.now.sides }
        requires found { found.now ≡ box_of self.now.grid.now parent }
        ensures { IfOk result (λ list. MatchOption list (room < length (kids self.now.grid.now (look_at self.now.shape.now) parent)) (λ entries. (entries.items ≡ kids self.now.grid.now (look_at self.now.shape.now) parent) × (length entries.items ≤ room))) }
    {
        let near = nearby(alloc, self.shape, found)?;
        self.kids_by(alloc, parent, room, &near)
    }

    /// The same by another shape that has the same points in the parent.
    fn kids_by(
        &self,
        alloc: Global,
        parent: Cell,
        room: usize,
        near: &Shape,
    ) -> Result<Option<Vec<(Cell, Mark)>>, AllocError>
        requires sight { IsSight self.now.grid.now self.now.shape.now self.now.bounds }
        requires path { IsPath self.now.grid.now.sides parent }
        requires level { length parent < length self.now.grid.now.sides }
        requires sound { IsSound near.now }
        requires same { SameIn (box_of self.now.grid.now parent) near.now self.now.shape.now }
        ensures { IfOk result (λ list. MatchOption list (room < length (kids self.now.grid.now (look_at self.now.shape.now) parent)) (λ entries. (entries.items ≡ kids self.now.grid.now (look_at self.now.shape.now) parent) × (length entries.items ≤ room))) }
    {
        match near.bounds() {
            None => self.kids_among(alloc, parent, room),
            Some(bounds) => Sight {
                judge: self.judge,
                grid: self.grid,
                shape: near,
                bounds,
            }
            .kids_among(alloc, parent, room),
        }
    }

    /// The same by the whole shape.
    fn kids_among(
        &self,
        alloc: Global,
        parent: Cell,
        room: usize,
    ) -> Result<Option<Vec<(Cell, Mark)>>, AllocError>
        requires sight { IsSight self.now.grid.now self.now.shape.now self.now.bounds }
        requires path { IsPath self.now.grid.now.sides parent }
        requires level { length parent < length self.now.grid.now.sides }
        ensures { IfOk result (λ list. MatchOption list (room < length (kids self.now.grid.now (look_at self.now.shape.now) parent)) (λ entries. (entries.items ≡ kids self.now.grid.now (look_at self.now.shape.now) parent) × (length entries.items ≤ room))) }
    {
        let block = self.grid.block_of(parent);
        let reach = self.reach(parent, block);
        let mut entries = Vec::new(alloc);
        for place in 0..places_in(self.grid, parent) {
            let cell = child_of(self.grid, parent, place);
            if let Some(mark) = self.mark_at(alloc, parent, block, place, &reach)? {
                if entries.len() == room {
                    return Ok(None);
                }
                entries.push((cell, mark))?;
            }
        }
        Ok(Some(entries))
    }

    /// The mark of the child at a place, where the shape meets it. Only a child within reach is looked at.
    fn mark_at(
        &self,
        alloc: Global,
        parent: Cell,
        block: Block,
        place: u16,
        reach: &Reach,
    ) -> Result<Option<Mark>, AllocError>
        requires sight { IsSight self.now.grid.now self.now.shape.now self.now.bounds }
        requires path { IsPath self.now.grid.now.sides parent }
        requires level { length parent < length self.now.grid.now.sides }
        requires block { IsBlock self.now.grid.now parent block }
        requires place { place < four_to (split_of self.now.grid.now.sides parent) }
        requires most { place < 256 }
        requires reach { IsReach self.now.grid.now parent self.now.bounds reach.now }
        ensures { IfOk result (λ mark. mark ≡ mark_by (look_at self.now.shape.now) (box_of self.now.grid.now (parent ++ place ∷ []))) }
    {
        if reach.has(side_under(self.grid, parent), place as u8) {
            self.mark_of(alloc, parent, block, place as u8)
        } else {
            Ok(None)
        }
    }
}

/// How many children a cell has; cell 0 stands for the whole box.
pub(crate) fn places_in(grid: &Grid, parent: Cell) -> u16
    requires grid { IsGrid grid.now }
    requires path { IsPath grid.now.sides parent }
    requires level { length parent < length grid.now.sides }
    ensures places { result ≡ four_to (split_of grid.now.sides parent) }
    ensures most { result ≤ 256 }
{
    let side = u16::from(side_under(grid, parent));
    side * side
}

/// How many columns and rows of children a cell has; cell 0 stands for the whole box.
pub(crate) fn side_under(grid: &Grid, parent: Cell) -> u8
    requires grid { IsGrid grid.now }
    requires path { IsPath grid.now.sides parent }
    requires level { length parent < length grid.now.sides }
    ensures side { IsSide result }
    ensures doublings { doublings result ≡ split_of grid.now.sides parent }
    ensures columns { result ≡ two_to (split_of grid.now.sides parent) }
    ensures places { result * result ≡ four_to (split_of grid.now.sides parent) }
    ensures most { result ≤ 16 }
{
    grid.side(parent.level() + 1)
}

/// The child at a place of a cell; cell 0 stands for the whole box.
fn child_of(grid: &Grid, parent: Cell, place: u16) -> Cell
    requires path { IsPath grid.now.sides parent }
    requires level { length parent < length grid.now.sides }
    requires place { place < four_to (split_of grid.now.sides parent) }
    requires most { place < 256 }
    ensures places { result ≡ parent ++ place ∷ [] }
    ensures path { IsPath grid.now.sides result }
{
    if parent.level() == 0 {
        grid.child(None, place as u8)
    } else {
        grid.child(Some(parent), place as u8)
    }
}

/// Whether the box has a common place with the bounds.
fn is_near(found: &CellBox, bounds: &Bounds) -> bool
    ensures { result ≡ is_near found.now bounds.now }
{
    is_near_across(found, bounds) && is_near_up(found, bounds)
}

/// Whether some x lies in both.
pub(crate) fn is_near_across(found: &CellBox, bounds: &Bounds) -> bool
    ensures { result ≡ overlaps found.now.xlow found.now.xhigh found.now.closed_x bounds.now.xmin bounds.now.xmax }
{
    found.xlow <= bounds.xmax
        && (bounds.xmin < found.xhigh || (found.closed_x && bounds.xmin <= found.xhigh))
}

/// Whether some y lies in both.
pub(crate) fn is_near_up(found: &CellBox, bounds: &Bounds) -> bool
    ensures { result ≡ overlaps found.now.ylow found.now.yhigh found.now.closed_y bounds.now.ymin bounds.now.ymax }
{
    found.ylow <= bounds.ymax
        && (bounds.ymin < found.yhigh || (found.closed_y && bounds.ymin <= found.yhigh))
}
