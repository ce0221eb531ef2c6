ghost use Rattle.std.specs.Prelude.{◌≡◌, ◌≤◌, ◌<◌, ◌-◌, ◌*◌, ◌++◌, [], ◌∷◌, length, map, slice_index, ◌&&◌, int_lt, IsTrue, None, Some, MatchOption, MatchResult};
ghost use Rattle.sg_shape.specs.Boxes.{IsCellBox};
ghost use Rattle.sg_hilbert.specs.Curve.{IsSide, doublings, two_to, four_to};
ghost use Rattle.sg_cells.specs.Cells.{IsGrid, IsPath, split_of, block_from, front, root, box_at, box_of, whole, auto_sides, AreLevels};
ghost use Rattle.sg_cells.specs.Grids.{grid_within, grid_fault, HasNoBox, IsBlock, under, CanSplit, sides_of, levels_of};
ghost use Rattle.sg_cells.specs.Densities.{power};

use crate::blocks::Block;
use crate::bounds::{coordinate, count, fault_of, length_between};
use crate::cell::Cell;
use crate::density::{Density, four_levels, side_of};
use crate::edges::edge;
use crate::faults::GridFault;
use crate::levels::Levels;
use sg_hilbert::spot_of;
use sg_shape::CellBox;
use std::marker::Model;

/// A box with four or eight levels of cells, and how many cells a shape may have.
#[derive(Clone, Debug, Drop)]
pub struct Grid {
    xmin: i32,
    ymin: i32,
    width: u32,
    height: u32,
    levels: Levels,
    cells: u32,
}

impl Copy for Grid {}

impl Model for Grid {
    ghost use Rattle.std.specs.Prelude.{◌≡◌};
    ghost use Rattle.sg_cells.specs.Cells.{Grid as GridValue, IsGrid, grid_code};
    ghost use Rattle.sg_cells.specs.Grids.{grid_of, sides_of, levels_of};

    ghost Value = { GridValue };

    ghost coded = { grid_code };

    ghost view = { λ g. grid_of g.xmin g.ymin g.width g.height (sides_of g.levels) g.cells };

    ghost invariant = { λ g. IsGrid (grid_of g.xmin g.ymin g.width g.height (sides_of g.levels) g.cells) × (levels_of (sides_of g.levels) ≡ g.levels) };

    ghost inverse = { λ v. record { xmin = v.west; ymin = v.south; width = v.width; height = v.height; levels = levels_of v.sides; cells = v.cells } };

    ghost inverse_ok = { λ g h i. record { xmin = g.xmin; ymin = g.ymin; width = g.width; height = g.height; levels = h.1 i; cells = g.cells } };
}

impl Grid {
    /// A grid over a box, with the density of each of four levels from level 1 down and the number of cells
    /// that a shape may have. It is refused for its first fault.
    pub fn new(
        xmin: i64,
        ymin: i64,
        xmax: i64,
        ymax: i64,
        levels: [Density; 4],
        cells: i64,
    ) -> Result<Grid, GridFault>
        ensures { MatchResult result
            (λ grid. (grid_fault xmin ymin xmax ymax cells ≡ None) × (grid ≡ grid_within xmin ymin xmax ymax (map power levels) cells))
            (λ fault. grid_fault xmin ymin xmax ymax cells ≡ Some fault) }
    {
        let levels = Levels::Four(four_levels(levels));
        Grid::with_levels(xmin, ymin, xmax, ymax, levels, cells)
    }

    /// A grid over a box with eight levels, the first of them High and the others Low, and the number of cells
    /// that a shape may have. It is refused for its first fault.
    pub fn auto(xmin: i64, ymin: i64, xmax: i64, ymax: i64, cells: i64) -> Result<Grid, GridFault>
        ensures { MatchResult result
            (λ grid. (grid_fault xmin ymin xmax ymax cells ≡ None) × (grid ≡ grid_within xmin ymin xmax ymax auto_sides cells))
            (λ fault. grid_fault xmin ymin xmax ymax cells ≡ Some fault) }
    {
        Grid::with_levels(xmin, ymin, xmax, ymax, Levels::Eight, cells)
    }

    /// A grid with these levels.
    fn with_levels(
        xmin: i64,
        ymin: i64,
        xmax: i64,
        ymax: i64,
        levels: Levels,
        cells: i64,
    ) -> Result<Grid, GridFault>
        requires levels { AreLevels (sides_of levels) }
        requires back { levels_of (sides_of levels) ≡ levels }
        ensures { MatchResult result
            (λ grid. (grid_fault xmin ymin xmax ymax cells ≡ None) × (grid ≡ grid_within xmin ymin xmax ymax (sides_of levels) cells))
            (λ fault. grid_fault xmin ymin xmax ymax cells ≡ Some fault) }
    {
        match fault_of(xmin, ymin, xmax, ymax, cells) {
            Some(fault) => Err(fault),
            None => Ok(Grid {
                xmin: coordinate(xmin),
                ymin: coordinate(ymin),
                width: length_between(xmin, xmax),
                height: length_between(ymin, ymax),
                levels,
                cells: count(cells),
            }),
        }
    }

    /// How many levels there are: 4 or 8.
    pub fn levels(&self) -> u8
        ensures levels { result ≡ length self.now.sides }
        ensures least { 4 ≤ result }
        ensures most { result ≤ 8 }
    {
        self.levels.count()
    }

    /// How many columns and rows of a level lie in each cell of the level above: 4, 8 or 16. Levels are 1
    /// to the grid's last.
    pub fn side(&self, level: u8) -> u8
        requires least { 1 ≤ level }
        requires most { level ≤ length self.now.sides }
        ensures side { IsSide result }
        ensures doublings { doublings result ≡ slice_index self.now.sides (level - 1) }
        ensures columns { result ≡ two_to (slice_index self.now.sides (level - 1)) }
        ensures most { result ≤ 16 }
    {
        side_of(self.levels.density_at(level))
    }

    /// The cell at a place within a cell above the last level; None is the whole box. Places are below the
    /// square of the next level's side.
    pub fn child(&self, parent: Option<Cell>, place: u8) -> Cell
        requires parent { CanSplit self.now parent }
        requires place { place < four_to (split_of self.now.sides (under parent)) }
        ensures places { result ≡ under parent ++ place ∷ [] }
        ensures path { IsPath self.now.sides result }
    {
        let _grid = &self.cells;
        match parent {
            None => Cell::outside().with_place(place),
            Some(cell) => cell.with_place(place),
        }
    }

    /// The box of a cell of this grid: none exactly for cell 0, and for a cell with a side of length 0.
    pub fn box_of(&self, cell: Cell) -> Option<CellBox>
        requires { IsPath self.now.sides cell }
        ensures { MatchOption result (HasNoBox self.now cell) (λ found. (1 ≤ length cell) × (found ≡ box_of self.now cell) × IsCellBox found) }
    {
        let level = cell.level();
        if level == 0 {
            return None;
        }
        let found = self.box_at(self.block_at(cell, level));
        if has_area(found) { Some(found) } else { None }
    }

    /// Where a cell lies in the lattice of its level, for the boxes of its children. Cell 0 stands for the whole box.
    pub fn block_of(&self, cell: Cell) -> Block
        requires { IsPath self.now.sides cell }
        ensures { IsBlock self.now cell result }
    {
        self.block_at(cell, cell.level())
    }

    /// The box of the child at a place of a cell above the last level, by the block of that cell: none exactly for
    /// a child with a side of length 0. Cell 0 stands for the whole box.
    pub fn child_box(&self, parent: Cell, block: Block, place: u8) -> Option<CellBox>
        requires path { IsPath self.now.sides parent }
        requires level { length parent < length self.now.sides }
        requires block { IsBlock self.now parent block }
        requires place { place < four_to (split_of self.now.sides parent) }
        ensures { MatchOption result
            (HasNoBox self.now (parent ++ place ∷ []))
            (λ found. (found ≡ box_of self.now (parent ++ place ∷ [])) × IsCellBox found) }
    {
        self.in_limits();
        let side = self.side(parent.level() + 1);
        let (x, y) = spot_of(side, place);
        let found = self.box_at(block.split(side, x, y));
        if has_area(found) { Some(found) } else { None }
    }

    /// The whole box, with all its edges.
    pub fn whole(&self) -> CellBox
        ensures whole { result ≡ whole self.now }
        ensures sides { IsCellBox result }
        ensures right { IsTrue result.closed_x }
        ensures top { IsTrue result.closed_y }
    {
        self.box_at(Block {
            across: 1,
            column: 0,
            row: 0,
        })
    }

    /// That the box, the sides of the levels and the number of cells are within their limits, for a proof that
    /// rests on it. It does nothing.
    #[inline(always)]
    pub fn in_limits(&self)
        ensures { IsGrid self.now }
    {
        let _cells = &self.cells;
    }

    /// How many cells a shape may have: 1 to 8192.
    pub fn cells(&self) -> u32
        ensures cells { result ≡ self.now.cells }
        ensures grid { IsGrid self.now }
    {
        self.cells
    }

    /// Where the cell's ancestor at a level, or at its own the cell, lies.
    fn block_at(&self, cell: Cell, level: u8) -> Block
        requires path { IsPath self.now.sides cell }
        requires level { level ≤ length cell }
        ensures across { result.across ≡ (block_from self.now.sides (front level cell) root).across }
        ensures column { result.column ≡ (block_from self.now.sides (front level cell) root).column }
        ensures row { result.row ≡ (block_from self.now.sides (front level cell) root).row }
        ensures some { 1 ≤ result.across }
        ensures most { result.across ≤ 262144 }
        ensures in_columns { result.column < result.across }
        ensures in_rows { result.row < result.across }
    {
        if level == 0 {
            return Block {
                across: 1,
                column: 0,
                row: 0,
            };
        }
        self.in_limits();
        let above = self.block_at(cell, level - 1);
        let side = self.side(level);
        let (x, y) = spot_of(side, cell.place(level));
        above.split(side, x, y)
    }

    /// The box of a block.
    fn box_at(&self, block: Block) -> CellBox
        requires most { block.across ≤ 262144 }
        requires column { block.column < block.across }
        requires row { block.row < block.across }
        ensures found { result ≡ box_at self.now (record { across = block.across; column = block.column; row = block.row }) }
        ensures grid { IsGrid self.now }
    {
        CellBox {
            xlow: edge(self.xmin, self.width, block.across, block.column),
            ylow: edge(self.ymin, self.height, block.across, block.row),
            xhigh: edge(self.xmin, self.width, block.across, block.column + 1),
            yhigh: edge(self.ymin, self.height, block.across, block.row + 1),
            closed_x: block.column + 1 == block.across,
            closed_y: block.row + 1 == block.across,
        }
    }
}

/// Whether neither side has length 0.
fn has_area(found: CellBox) -> bool
    ensures { result ≡ (int_lt found.xlow found.xhigh && int_lt found.ylow found.yhigh) }
{
    found.xlow < found.xhigh && found.ylow < found.yhigh
}
