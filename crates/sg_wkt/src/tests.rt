use crate::*;
use sg_shape::{Kind, Shape, Spot};
use std::alloc::{AllocError, Global};
use std::test::Fail;

#[test]
fn reads_points(rt: HostRuntime) {
    let texts: [(&[u8], i32, i32); 4] = [
        (b"POINT (3 4)", 3, 4),
        (b"point(3.0 -0)", 3, 0),
        (
            b" Point\t( +16000000.000 -016000000 ) \r\n",
            16_000_000,
            -16_000_000,
        ),
        (b"POINT(0 0.)", 0, 0),
    ];
    for (text, x, y) in texts {
        match read_wkt(rt.alloc(), text) {
            Ok(Shape::Point(spot)) => assert!(rt; spot == Spot { x, y }),
            _ => assert!(rt; false, "refused"),
        }
    }
}

#[test]
fn reads_empty(rt: HostRuntime) {
    let point = read_wkt(rt.alloc(), b"point empty");
    assert!(rt; matches!(point, Ok(Shape::Empty(Kind::Point))));
    let line = read_wkt(rt.alloc(), b" LineString\nEMPTY");
    assert!(rt; matches!(line, Ok(Shape::Empty(Kind::Line))));
    let polygon = read_wkt(rt.alloc(), b"POLYGON Empty ");
    assert!(rt; matches!(polygon, Ok(Shape::Empty(Kind::Polygon))));
}

#[test]
fn reads_back(rt: HostRuntime) -> Result<(), Fail> {
    let texts: [(&[u8], &[u8]); 4] = [
        (b"point ( +3 -16000000.0 )", b"POINT (3 -16000000)"),
        (
            b"linestring(0 0,03 -4 , 3 4)",
            b"LINESTRING (0 0, 3 -4, 3 4)",
        ),
        (
            b"Polygon((0 0,10 0,10 10,-0 0),(3 3,\t4 3,4 4,3 3))",
            b"POLYGON ((0 0, 10 0, 10 10, 0 0), (3 3, 4 3, 4 4, 3 3))",
        ),
        (b"linestring empty", b"LINESTRING EMPTY"),
    ];
    for (text, canonical) in texts {
        let mut out = Vec::new(rt.alloc());
        match read_wkt(rt.alloc(), text) {
            Ok(shape) => write_wkt(rt.alloc(), &shape, &mut out)?,
            Err(_) => assert!(rt; false, "refused"),
        }
        assert!(rt; out.as_slice() == canonical);
    }
    Ok(())
}

#[test]
fn tells_the_first_fault(rt: HostRuntime) {
    let texts: [(&[u8], usize, WktKind); 20] = [
        (b"", 0, WktKind::End),
        (b"POINT (0 \t\r", 11, WktKind::End),
        (b"CIRCLE (0 0)", 0, WktKind::Keyword),
        (b"POINT 3 4", 6, WktKind::Punctuation),
        (b"POINT (--5 0)", 7, WktKind::Number),
        (b"POINT (3.5 0)", 7, WktKind::Fraction),
        (b"POINT (16000001.5 0)", 7, WktKind::Fraction),
        (b"POINT (16000001 0)", 7, WktKind::CoordOut),
        (b"POINT (3 4) 5", 12, WktKind::After),
        (b"LINESTRING (0 0)", 15, WktKind::TooFew),
        (b"LINESTRING ()", 12, WktKind::Number),
        (b"LINESTRING (0 0 1 1)", 16, WktKind::Punctuation),
        (b"LINESTRING (0 0, 1 1), 2", 21, WktKind::After),
        (b"POLYGON ()", 9, WktKind::Punctuation),
        (b"POLYGON ((0 0, 4 0", 18, WktKind::End),
        (b"POLYGON ((0 0, 4 0, 0 0))", 23, WktKind::TooFew),
        (b"POLYGON ((0 0, 4 0, 4 4))", 23, WktKind::TooFew),
        (b"POLYGON ((0 0, 4 0, 4 4, 0 1))", 28, WktKind::RingOpen),
        (
            b"POLYGON ((0 0, 4 0, 4 4, 0 0), 5",
            31,
            WktKind::Punctuation,
        ),
        (b"POLYGON ((0 0, 4 0, 4 4, 0 0) (", 30, WktKind::Punctuation),
    ];
    for (text, at, kind) in texts {
        match read_wkt(rt.alloc(), text) {
            Err(ReadShape::Fault(fault)) => assert!(rt; fault == WktFault { at, kind }),
            _ => assert!(rt; false, "not refused"),
        }
    }
}

/// A text with so many spots, all at the origin.
fn text_of(alloc: Global, front: &[u8], count: u32, back: &[u8]) -> Result<Vec<u8>, AllocError> {
    let mut text = Vec::new(alloc);
    text.extend_from_slice(front)?;
    for place in 0..count {
        if place > 0 {
            text.extend_from_slice(b", ")?;
        }
        text.extend_from_slice(b"0 0")?;
    }
    text.extend_from_slice(back)?;
    Ok(text)
}

#[test]
fn reads_the_most_spots(rt: HostRuntime) -> Result<(), Fail> {
    let text = text_of(rt.alloc(), b"LINESTRING (", 2_048, b")")?;
    let line = read_wkt(rt.alloc(), text.as_slice());
    assert!(rt; matches!(&line, Ok(Shape::Line(path)) if path.len() == 2_048));
    Ok(())
}

#[test]
fn counts_spots(rt: HostRuntime) -> Result<(), Fail> {
    let texts: [(&[u8], u32, &[u8], WktKind); 4] = [
        (b"LINESTRING (", 2_049, b")", WktKind::TooMany),
        (b"LINESTRING (", 2_048, b", )", WktKind::TooMany),
        (b"LINESTRING (", 2_048, b", ", WktKind::End),
        (b"POLYGON ((", 2_048, b"), (0 0", WktKind::TooMany),
    ];
    for (front, count, back, kind) in texts {
        let text = text_of(rt.alloc(), front, count, back)?;
        match read_wkt(rt.alloc(), text.as_slice()) {
            Err(ReadShape::Fault(fault)) => assert!(rt; fault == WktFault { at: 10_252, kind }),
            _ => assert!(rt; false, "not refused"),
        }
    }
    Ok(())
}

#[test]
fn prints_faults(rt: HostRuntime) -> Result<(), Fail> {
    let fault = WktFault {
        at: 7,
        kind: WktKind::CoordOut,
    };
    let text = format!(in rt.alloc(); "{fault}")?;
    assert!(rt; text.as_str() == "coordinate out at byte 7");
    Ok(())
}
