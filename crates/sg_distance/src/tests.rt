//! Worked distances, computed by hand.

use super::*;
use sg_shape::{Kind, Path, Rings, Shape, Spot};
use std::alloc::{AllocError, Global};
use std::test::Fail;

/// Below the distance, and at most the distance.
fn answers(a: &Shape, b: &Shape, d: u32) -> Option<(bool, bool)> {
    if d > 64_000_000 {
        return None;
    }
    a.check().ok()?;
    b.check().ok()?;
    Some((near(a, b, d, true), near(a, b, d, false)))
}

const FARTHER: Option<(bool, bool)> = Some((false, false));

const EXACTLY: Option<(bool, bool)> = Some((false, true));

const NEARER: Option<(bool, bool)> = Some((true, true));

fn point(x: i32, y: i32) -> Shape {
    Shape::Point(Spot { x, y })
}

fn path(alloc: Global, spots: &[(i32, i32)]) -> Result<Path, AllocError> {
    let mut path = Path::new(alloc);
    for (x, y) in spots {
        path.push(Spot { x: *x, y: *y })?;
    }
    Ok(path)
}

fn line(alloc: Global, spots: &[(i32, i32)]) -> Result<Shape, AllocError> {
    Ok(Shape::Line(path(alloc, spots)?))
}

/// The ring around a square.
fn square(alloc: Global, low: i32, high: i32) -> Result<Path, AllocError> {
    path(
        alloc,
        &[
            (low, low),
            (high, low),
            (high, high),
            (low, high),
            (low, low),
        ],
    )
}

/// The rings around two squares.
fn squares(alloc: Global, first: (i32, i32), second: (i32, i32)) -> Result<Shape, Fail> {
    let mut rings = Rings::new(alloc);
    for (low, high) in [first, second] {
        let ring = square(alloc, low, high)?;
        rings.push(ring).ok().ok_or("a ring")?;
    }
    Ok(Shape::Polygon(rings))
}

#[test]
fn two_points(rt: HostRuntime) {
    grown_laws();
    let here = point(0, 0);
    let there = point(3, 4);
    assert_eq!(rt; answers(&here, &there, 4), FARTHER);
    assert_eq!(rt; answers(&here, &there, 5), EXACTLY);
    assert_eq!(rt; answers(&here, &there, 6), NEARER);
    assert_eq!(rt; answers(&here, &there, 0), FARTHER);
    assert_eq!(rt; answers(&here, &here, 0), EXACTLY);
}

#[test]
fn a_polygon_with_a_hole(rt: HostRuntime) -> Result<(), Fail> {
    let frame = squares(rt.alloc(), (0, 20), (5, 15))?;
    let rows = [
        // in the hole, 5 from its right side
        (10, 10, 4, FARTHER),
        (10, 10, 5, EXACTLY),
        (10, 10, 6, NEARER),
        // between the rings
        (2, 10, 0, EXACTLY),
        (2, 10, 1, NEARER),
        // on an edge of each ring
        (20, 7, 0, EXACTLY),
        (20, 7, 1, NEARER),
        (5, 9, 0, EXACTLY),
        (5, 9, 1, NEARER),
        // outside, 5 from a corner
        (24, 23, 4, FARTHER),
        (24, 23, 5, EXACTLY),
        (24, 23, 6, NEARER),
    ];
    for (x, y, d, want) in rows {
        assert_eq!(rt; answers(&frame, &point(x, y), d), want, "{x} {y} at {d}");
        assert_eq!(rt;
            answers(&point(x, y), &frame, d),
            want,
            "{x} {y} at {d}, turned"
        );
    }
    Ok(())
}

#[test]
fn lines(rt: HostRuntime) -> Result<(), Fail> {
    // the foot of (3 9) on this line lies inside it, at 75 / sqrt(125), a little above 6.7
    let slope = line(rt.alloc(), &[(0, 0), (10, 5)])?;
    assert_eq!(rt; answers(&slope, &point(3, 9), 6), FARTHER);
    assert_eq!(rt; answers(&slope, &point(3, 9), 7), NEARER);
    // the foot of (13 9) lies beyond its end, which is 5 away; the line without ends would be nearer
    assert_eq!(rt; answers(&slope, &point(13, 9), 4), FARTHER);
    assert_eq!(rt; answers(&slope, &point(13, 9), 5), EXACTLY);
    // edges side by side
    let low = line(rt.alloc(), &[(0, 0), (10, 0)])?;
    let high = line(rt.alloc(), &[(20, 9), (7, 4), (3, 4)])?;
    assert_eq!(rt; answers(&low, &high, 3), FARTHER);
    assert_eq!(rt; answers(&low, &high, 4), EXACTLY);
    assert_eq!(rt; answers(&low, &high, 5), NEARER);
    // edges that cross, far from all ends
    let across = line(rt.alloc(), &[(5, -100), (6, 100)])?;
    assert_eq!(rt; answers(&low, &across, 0), EXACTLY);
    assert_eq!(rt; answers(&low, &across, 1), NEARER);
    Ok(())
}

#[test]
fn far_corners(rt: HostRuntime) -> Result<(), Fail> {
    // 32,000,000 times the square root of 2 lies between 45,254,833 and 45,254,834
    let low = point(-16_000_000, -16_000_000);
    let high = line(
        rt.alloc(),
        &[(16_000_000, 16_000_000), (16_000_000, 16_000_000)],
    )?;
    let box_there = squares(
        rt.alloc(),
        (16_000_000, 16_000_000),
        (16_000_000, 16_000_000),
    )?;
    for there in [&high, &box_there] {
        assert_eq!(rt; answers(&low, there, 45_254_833), FARTHER);
        assert_eq!(rt; answers(&low, there, 45_254_834), NEARER);
        assert_eq!(rt; answers(there, &low, 64_000_000), NEARER);
    }
    Ok(())
}

#[test]
fn nothing_is_near_an_empty_shape(rt: HostRuntime) -> Result<(), Fail> {
    let frame = squares(rt.alloc(), (0, 20), (5, 15))?;
    for empty in [
        Shape::Empty(Kind::Point),
        Shape::Empty(Kind::Line),
        Shape::Empty(Kind::Polygon),
    ] {
        assert_eq!(rt; answers(&frame, &empty, 64_000_000), FARTHER);
        assert_eq!(rt; answers(&empty, &frame, 64_000_000), FARTHER);
        assert_eq!(rt; answers(&empty, &empty, 0), FARTHER);
    }
    Ok(())
}

#[test]
fn a_ring_within_another(rt: HostRuntime) -> Result<(), Fail> {
    // a square of the one lies in a square of the other, and neither shape's first spot does
    let a = squares(rt.alloc(), (0, 1), (10, 20))?;
    let b = squares(rt.alloc(), (100, 101), (12, 13))?;
    assert_eq!(rt; answers(&a, &b, 0), EXACTLY);
    assert_eq!(rt; answers(&b, &a, 0), EXACTLY);
    assert_eq!(rt; answers(&b, &a, 1), NEARER);
    Ok(())
}
