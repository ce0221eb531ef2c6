ghost use Rattle.std.specs.Prelude.{◌≡◌, ◌++◌, flat_map, codes, OnOk, OnErr};
ghost use Rattle.sg_shape.specs.Sound.{IsSound};
ghost use Rattle.sg_wkt.specs.Canonical.{canonical, listed, path_text, spot_text};

use sg_shape::{Kind, Path, Shape, Spot};
use std::alloc::{AllocError, Global};

/// Appends the canonical text of a shape: words in upper case, one space after the shape word and between
/// the numbers of a spot, a comma and one space between spots and between rings, numbers without a plus
/// sign, a leading zero or a dot. An `Err` comes for want of memory alone, and leaves `out`.
pub fn write_wkt(alloc: Global, shape: &Shape, out: &mut Vec<u8>) -> Result<(), AllocError>
    requires { IsSound shape.now }
    ensures ok { OnOk result (out.new.items ≡ out.old.items ++ canonical shape.now) }
    ensures err { OnErr result (out.new.items ≡ out.old.items) }
{
    let mut text = Vec::new(alloc);
    write_shape(alloc, shape, &mut text)?;
    out.extend_from_slice(text.as_slice())
}

fn write_shape(alloc: Global, shape: &Shape, out: &mut Vec<u8>) -> Result<(), AllocError>
    ensures { OnOk result (out.new.items ≡ out.old.items ++ canonical shape.now) }
{
    match shape {
        Shape::Empty(kind) => out.extend_from_slice(empty_text(*kind)),
        Shape::Point(spot) => {
            out.extend_from_slice(b"POINT (")?;
            write_spot(alloc, *spot, out)?;
            out.extend_from_slice(b")")
        }
        Shape::Line(path) => {
            out.extend_from_slice(b"LINESTRING ")?;
            write_path(alloc, path.as_slice(), out)
        }
        Shape::Polygon(rings) => {
            out.extend_from_slice(b"POLYGON (")?;
            write_rings(alloc, rings.as_slice(), out)?;
            out.extend_from_slice(b")")
        }
    }
}

fn empty_text(kind: Kind) -> &'static [u8]
    ensures { result.now ≡ canonical (Shape.Empty kind) }
{
    match kind {
        Kind::Point => b"POINT EMPTY",
        Kind::Line => b"LINESTRING EMPTY",
        Kind::Polygon => b"POLYGON EMPTY",
    }
}

/// Appends rings with a comma and a space between them.
fn write_rings(alloc: Global, rings: &[Path], out: &mut Vec<u8>) -> Result<(), AllocError>
    ensures { OnOk result (out.new.items ≡ out.old.items ++ listed path_text rings.now) }
{
    match rings {
        [] => Ok(()),
        [first, rest @ ..] => {
            write_path(alloc, first.as_slice(), out)?;
            write_further_rings(alloc, rest, out)
        }
    }
}

/// Appends rings, with a comma and a space before each.
fn write_further_rings(alloc: Global, rings: &[Path], out: &mut Vec<u8>) -> Result<(), AllocError>
    ensures { OnOk result (out.new.items ≡ out.old.items ++ flat_map (λ ring. codes ", " ++ path_text ring) rings.now) }
{
    for ring in rings {
        out.extend_from_slice(b", ")?;
        write_path(alloc, ring.as_slice(), out)?;
    }
    Ok(())
}

/// Appends spots in brackets.
fn write_path(alloc: Global, spots: &[Spot], out: &mut Vec<u8>) -> Result<(), AllocError>
    ensures { OnOk result (out.new.items ≡ out.old.items ++ path_text spots.now) }
{
    out.extend_from_slice(b"(")?;
    write_spots(alloc, spots, out)?;
    out.extend_from_slice(b")")
}

/// Appends spots with a comma and a space between them.
fn write_spots(alloc: Global, spots: &[Spot], out: &mut Vec<u8>) -> Result<(), AllocError>
    ensures { OnOk result (out.new.items ≡ out.old.items ++ listed spot_text spots.now) }
{
    match spots {
        [] => Ok(()),
        [first, rest @ ..] => {
            write_spot(alloc, *first, out)?;
            write_further_spots(alloc, rest, out)
        }
    }
}

/// Appends spots, with a comma and a space before each.
fn write_further_spots(alloc: Global, spots: &[Spot], out: &mut Vec<u8>) -> Result<(), AllocError>
    ensures { OnOk result (out.new.items ≡ out.old.items ++ flat_map (λ spot. codes ", " ++ spot_text spot) spots.now) }
{
    for spot in spots {
        out.extend_from_slice(b", ")?;
        write_spot(alloc, *spot, out)?;
    }
    Ok(())
}

/// Appends the numbers of a spot.
fn write_spot(alloc: Global, spot: Spot, out: &mut Vec<u8>) -> Result<(), AllocError>
    ensures { OnOk result (out.new.items ≡ out.old.items ++ spot_text spot) }
{
    let x = spot.x;
    let y = spot.y;
    let text = format!(in alloc; "{x} {y}")?;
    out.extend_from_slice(text.as_bytes())
}
