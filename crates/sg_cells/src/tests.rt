ghost use Rattle.std.specs.Prelude.{◌≡◌, ◌∷◌, [], IfOk};

use super::*;
use sg_shape::CellBox;
use std::test::Fail;

/// A grid from (0, 0) with all levels Low.
fn low_grid(xmax: i64, ymax: i64) -> Result<Grid, GridFault>
    ensures { IfOk result (λ grid. grid.sides ≡ 2 ∷ 2 ∷ 2 ∷ 2 ∷ []) }
{
    let levels = [Density::Low, Density::Low, Density::Low, Density::Low];
    Grid::new(0, 0, xmax, ymax, levels, 16)
}

/// A grid from (0, 0) with all levels Medium.
fn medium_grid(xmax: i64, ymax: i64) -> Result<Grid, GridFault>
    ensures { IfOk result (λ grid. grid.sides ≡ 3 ∷ 3 ∷ 3 ∷ 3 ∷ []) }
{
    let levels = [
        Density::Medium,
        Density::Medium,
        Density::Medium,
        Density::Medium,
    ];
    Grid::new(0, 0, xmax, ymax, levels, 16)
}

#[test]
fn refusals_in_order(rt: HostRuntime) {
    let levels = [Density::Low, Density::Medium, Density::High, Density::Low];
    assert_eq!(rt;
        Grid::new(16_000_001, 0, 0, 0, levels, 0).err(),
        Some(GridFault::CoordOut)
    );
    assert_eq!(rt;
        Grid::new(0, 0, 0, -16_000_001, levels, 16).err(),
        Some(GridFault::CoordOut)
    );
    assert_eq!(rt;
        Grid::new(5, 0, 5, 9, levels, 0).err(),
        Some(GridFault::BoxEmpty)
    );
    assert_eq!(rt;
        Grid::new(0, 9, 5, 8, levels, 16).err(),
        Some(GridFault::BoxEmpty)
    );
    assert_eq!(rt;
        Grid::new(0, 0, 5, 9, levels, 0).err(),
        Some(GridFault::CellsOut)
    );
    assert_eq!(rt;
        Grid::new(0, 0, 5, 9, levels, 8193).err(),
        Some(GridFault::CellsOut)
    );
    assert!(rt;
        Grid::new(
            -16_000_000,
            -16_000_000,
            16_000_000,
            16_000_000,
            levels,
            8192
        )
        .is_ok()
    );
}

#[test]
fn down_to_a_point(rt: HostRuntime) -> Result<(), Fail> {
    let grid = low_grid(80, 80)?;
    let first = grid.child(None, 0);
    let second = grid.child(Some(first), 2);
    let third = grid.child(Some(second), 0);
    let fourth = grid.child(Some(third), 10);
    assert_eq!(rt; grid.side(1), 4);
    assert_eq!(rt; fourth.level(), 4);
    assert_eq!(rt; fourth.place(2), 2);
    assert_eq!(rt; fourth.parent(), Some(third));
    assert!(rt; first.parent().is_none());
    assert!(rt; first.contains(fourth) && !fourth.contains(first));
    assert_eq!(rt; fourth.id(), 144_126_183_192_133_636);
    assert_eq!(rt; fourth.last_below().id(), 144_127_282_703_761_160);
    assert_eq!(rt; first.last_below().id(), 0xff_ff_ff_ff_ff_ff_ff_08);
    assert_eq!(rt; grid.levels(), 4);
    let whole = grid.whole();
    assert!(rt; whole.xlow == 0 && whole.xhigh == 80 && whole.closed_x && whole.closed_y);
    assert_eq!(rt; grid.cells(), 16);
    let found = grid.box_of(fourth).ok_or("the box")?;
    let expected = CellBox {
        xlow: 5,
        ylow: 5,
        xhigh: 6,
        yhigh: 6,
        closed_x: false,
        closed_y: false,
    };
    assert_eq!(rt; found, expected);
    assert!(rt; grid.child_box(third, grid.block_of(third), 10) == Some(expected));
    assert!(rt; grid.box_of(Cell::outside()).is_none());
    Ok(())
}

/// The automatic grid from (0, 0) with a cell of the last level for each unit.
fn auto_grid() -> Result<Grid, GridFault>
    ensures { IfOk result (λ grid. grid.sides ≡ 4 ∷ 2 ∷ 2 ∷ 2 ∷ 2 ∷ 2 ∷ 2 ∷ 2 ∷ []) }
{
    Grid::auto(0, 0, 262_144, 262_144, 8)
}

#[test]
fn eight_levels(rt: HostRuntime) -> Result<(), Fail> {
    let grid = auto_grid()?;
    assert_eq!(rt; grid.levels(), 8);
    assert_eq!(rt; grid.cells(), 8);
    assert_eq!(rt; grid.side(1), 16);
    assert_eq!(rt; grid.side(8), 4);
    // the lower right corner
    let second = grid.child(Some(grid.child(None, 255)), 15);
    let fourth = grid.child(Some(grid.child(Some(second), 15)), 15);
    let sixth = grid.child(Some(grid.child(Some(fourth), 15)), 15);
    let cell = grid.child(Some(grid.child(Some(sixth), 15)), 15);
    assert_eq!(rt; cell.level(), 8);
    assert_eq!(rt; cell.place(1), 255);
    assert!(rt; cell.place(2) == 15 && cell.place(8) == 15);
    assert_eq!(rt; cell.id(), 0xff_0f_0f_0f_0f_0f_0f_0f_08);
    assert_eq!(rt; cell.last_below(), cell);
    assert_eq!(rt; cell.front(4), fourth);
    assert_eq!(rt; fourth.id(), 0xff_0f_0f_0f_00_00_00_00_04);
    assert_eq!(rt; fourth.last_below().id(), 0xff_0f_0f_0f_ff_ff_ff_ff_08);
    assert!(rt; fourth.contains(cell) && !cell.contains(fourth));
    let found = grid.box_of(cell).ok_or("the box")?;
    let expected = CellBox {
        xlow: 262_143,
        ylow: 0,
        xhigh: 262_144,
        yhigh: 1,
        closed_x: true,
        closed_y: false,
    };
    assert_eq!(rt; found, expected);
    assert_eq!(rt; Grid::auto(0, 9, 5, 8, 8).err(), Some(GridFault::BoxEmpty));
    assert_eq!(rt; Grid::auto(0, 0, 5, 9, 0).err(), Some(GridFault::CellsOut));
    assert_eq!(rt;
        Grid::auto(0, 0, 16_000_001, 9, 8).err(),
        Some(GridFault::CoordOut)
    );
    Ok(())
}

#[test]
fn columns_without_width(rt: HostRuntime) -> Result<(), Fail> {
    // at level 3 there are 512 columns over 500 units: column 256 lies from 250 to 250, column 257 to 251
    let grid = medium_grid(500, 200)?;
    let above = grid.child(Some(grid.child(None, 32)), 0);
    assert!(rt; grid.box_of(grid.child(Some(above), 14)).is_none());
    let found = grid.box_of(grid.child(Some(above), 13)).ok_or("the box")?;
    assert!(rt; found.xlow == 250 && found.xhigh == 251);
    assert!(rt; found.ylow == 100 && found.yhigh == 101);
    // the last column has the box's right edge, the lowest row not its own upper one
    let last = grid.box_of(grid.child(None, 63)).ok_or("the last box")?;
    assert!(rt; last.xlow == 437 && last.xhigh == 500 && last.closed_x);
    assert!(rt; last.ylow == 0 && last.yhigh == 25 && !last.closed_y);
    Ok(())
}

#[test]
fn order_of_cells(rt: HostRuntime) -> Result<(), Fail> {
    cell_laws();
    tess_laws();
    range_laws();
    query_laws();
    order_laws();
    let grid = low_grid(80, 80)?;
    let first = grid.child(None, 0);
    let below = grid.child(Some(first), 15);
    let next = grid.child(None, 1);
    assert!(rt; Cell::outside() < first && first < below && below < next);
    assert!(rt; below.id() <= first.last_below().id() && first.last_below().id() < next.id());
    assert!(rt; Cell::outside().contains(Cell::outside()) && !Cell::outside().contains(first));
    assert_eq!(rt; below.front(1), first);
    assert!(rt; Key::Row(7) < Key::RowEnd && Key::RowEnd < Key::Cell(first, 0));
    assert!(rt; Key::Cell(first, 9) < Key::Cell(below, 3) && Key::Cell(next, 3) < Key::CellEnd);
    let settings = Settings {
        grid: Some(grid),
        window: 64,
    };
    assert!(rt; settings.grid.is_some_and(|g| g.cells() == 16));
    Ok(())
}

#[test]
fn lists_of_cells(rt: HostRuntime) -> Result<(), Fail> {
    let grid = low_grid(80, 80)?;
    let first = grid.child(None, 0);
    let next = grid.child(None, 1);
    let mut list = CellList::new(rt.alloc());
    assert!(rt; list.push(first, Mark::Part).is_ok());
    assert!(rt; list.push(next, Mark::Cover).is_ok());
    assert_eq!(rt; list.len(), 2);
    assert_eq!(rt; list.at(1), Some((next, Mark::Cover)));
    assert!(rt; list.at(2).is_none());
    assert_eq!(rt; list.as_slice().len(), 2);
    Ok(())
}
