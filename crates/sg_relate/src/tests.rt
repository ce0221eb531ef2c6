use super::Relate;
use sg_shape::{Judge, Kind, Matrix, Path, Pred, Rings, Shape, Spot};
use std::alloc::{AllocError, Global};
use std::test::Fail;

#[test]
fn points(rt: HostRuntime) -> Result<(), Fail> {
    let alloc = rt.alloc();
    let origin = Shape::Point(Spot { x: 0, y: 0 });
    let other = Shape::Point(Spot { x: 3, y: 4 });
    let judge = Relate;
    assert!(rt;
        judge
            .relate(alloc, &origin, &origin)?
            .satisfies(Pred::Equals)
    );
    assert!(rt;
        !judge
            .relate(alloc, &origin, &other)?
            .satisfies(Pred::Intersects)
    );
    assert!(rt; !judge.near(&origin, &other, 5, true));
    assert!(rt; judge.near(&origin, &other, 5, false));
    assert!(rt; !judge.near(&origin, &Shape::Empty(Kind::Line), 5, false));
    Ok(())
}

#[test]
fn relations(rt: HostRuntime) -> Result<(), Fail> {
    let alloc = rt.alloc();
    let origin = Shape::Point(Spot { x: 0, y: 0 });
    let other = Shape::Point(Spot { x: 3, y: 4 });
    let judge = Relate;
    assert!(rt; judge.satisfies(alloc, &origin, &origin, Pred::Intersects)?);
    assert!(rt; judge.satisfies(alloc, &origin, &origin, Pred::Contains)?);
    assert!(rt; judge.satisfies(alloc, &origin, &origin, Pred::Within)?);
    assert!(rt; judge.satisfies(alloc, &origin, &origin, Pred::Equals)?);
    assert!(rt; !judge.satisfies(alloc, &origin, &other, Pred::Intersects)?);
    assert!(rt; !judge.satisfies(alloc, &origin, &origin, Pred::Touches)?);
    Ok(())
}

fn path_of(alloc: Global, spots: &[(i32, i32)]) -> Result<Path, AllocError> {
    let mut path = Path::new(alloc);
    for &(x, y) in spots {
        path.push(Spot { x, y })?;
    }
    Ok(path)
}

/// The outline of a square.
fn square(alloc: Global, low: i32, high: i32) -> Result<Path, AllocError> {
    let corners = [
        (low, low),
        (high, low),
        (high, high),
        (low, high),
        (low, low),
    ];
    path_of(alloc, &corners)
}

/// A square with two holes.
fn holed(alloc: Global) -> Result<Shape, Fail> {
    let mut rings = Rings::new(alloc);
    for (low, high) in [(0, 9), (1, 3), (5, 8)] {
        if rings.push(square(alloc, low, high)?).is_err() {
            return Err("a ring".into());
        }
    }
    let shape = Shape::Polygon(rings);
    shape.check()?;
    Ok(shape)
}

/// A line through the square, in both orders.
#[test]
fn a_line_and_a_polygon(rt: HostRuntime) -> Result<(), Fail> {
    let alloc = rt.alloc();
    let line = Shape::Line(path_of(alloc, &[(-1, 2), (12, 2)])?);
    let area = holed(alloc)?;
    line.check()?;
    area.check()?;
    let m = Relate.relate(alloc, &line, &area)?;
    assert_eq!(rt;
        entries(&m),
        [true, true, true, false, false, true, true, true, true]
    );
    let m = Relate.relate(alloc, &area, &line)?;
    assert_eq!(rt;
        entries(&m),
        [true, false, true, true, false, true, true, true, true]
    );
    Ok(())
}

/// The entries of a matrix, row by row.
fn entries(m: &Matrix) -> [bool; 9] {
    [m.ii, m.ib, m.io, m.bi, m.bb, m.bo, m.oi, m.ob, m.oo]
}

/// The greatest size of a coordinate.
const FAR: i32 = 16_000_000;

/// A line of as many spots as a shape may have: to and fro between the corner at the left and the opposite one.
fn to_and_fro(alloc: Global, left: i32) -> Result<Shape, AllocError> {
    let mut path = Path::new(alloc);
    for at in 0..2_048u32 {
        if at % 2 == 0 {
            path.push(Spot { x: -FAR, y: left })?;
        } else {
            path.push(Spot {
                x: FAR,
                y: 0i32.wrapping_sub(left),
            })?;
        }
    }
    Ok(Shape::Line(path))
}

/// Whether the longest lines, a rising and a falling one, are so related.
fn are(alloc: Global, pred: Pred) -> Result<bool, Fail> {
    let rising = to_and_fro(alloc, -FAR)?;
    let falling = to_and_fro(alloc, FAR)?;
    match (rising.check(), falling.check()) {
        (Ok(()), Ok(())) => Ok(Relate.satisfies(alloc, &rising, &falling, pred)?),
        _ => Err("a line isn't sound")?,
    }
}

// Each stretch of the one crosses each of the other in the middle, and the ends of each lie apart from the other.
#[test]
fn the_longest_lines(rt: HostRuntime) -> Result<(), Fail> {
    let alloc = rt.alloc();
    assert!(rt; are(alloc, Pred::Intersects)?);
    assert!(rt; !are(alloc, Pred::Within)?);
    assert!(rt; !are(alloc, Pred::Equals)?);
    assert!(rt; !are(alloc, Pred::Touches)?);
    Ok(())
}
