use super::nearby;
use sg_shape::{CellBox, Path, Rings, Shape, Spot};
use std::alloc::{AllocError, Global};
use std::test::Fail;

fn path_of(alloc: Global, spots: &[(i32, i32)]) -> Result<Path, AllocError> {
    let mut path = Path::new(alloc);
    for &(x, y) in spots {
        path.push(Spot { x, y })?;
    }
    Ok(path)
}

fn ring(alloc: Global, spots: &[(i32, i32)]) -> Result<Shape, AllocError> {
    let mut rings = Rings::new(alloc);
    match rings.push(path_of(alloc, spots)?) {
        Ok(()) => Ok(Shape::Polygon(rings)),
        Err(_back) => Err(AllocError),
    }
}

const CELL: CellBox = CellBox {
    xlow: 0,
    ylow: 0,
    xhigh: 4,
    yhigh: 4,
    closed_x: false,
    closed_y: false,
};

#[test]
fn far_spots_go(rt: HostRuntime) -> Result<(), Fail> {
    let alloc = rt.alloc();
    let shape = ring(
        alloc,
        &[
            (2, 2),
            (9, 2),
            (9, 3),
            (8, 4),
            (9, 5),
            (9, 9),
            (2, 9),
            (2, 2),
        ],
    )?;
    shape.check()?;
    let near = nearby(alloc, &shape, &CELL)?;
    let wanted = ring(alloc, &[(2, 2), (9, 2), (9, 9), (2, 9), (2, 2)])?;
    assert!(rt; near.is_same(&wanted));
    Ok(())
}

#[test]
fn a_line_keeps_its_ends(rt: HostRuntime) -> Result<(), Fail> {
    let alloc = rt.alloc();
    let shape = Shape::Line(path_of(
        alloc,
        &[(5, 0), (6, 1), (7, 2), (8, 1), (9, 0), (1, 1), (1, 9)],
    )?);
    shape.check()?;
    let near = nearby(alloc, &shape, &CELL)?;
    let wanted = Shape::Line(path_of(alloc, &[(5, 0), (9, 0), (1, 1), (1, 9)])?);
    assert!(rt; near.is_same(&wanted));
    Ok(())
}
