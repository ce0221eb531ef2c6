//! Lines and polygons, read spot by spot.

ghost use Rattle.std.specs.Prelude.{◌≡◌, ◌≤◌, ◌++◌, ◌∷◌, [], length, IfOk};
ghost use Rattle.sg_shape.specs.Sound.{is_open};
ghost use Rattle.sg_wkt.specs.Cursors.{Gives, Reads, left, seen};
ghost use Rattle.sg_wkt.specs.Grammar.{after_line_spot, after_ring, after_ring_spot, after_spot, most_spots, no_room, spots, step, whole_line, whole_ring, with_spot};

use crate::faults::{ReadShape, WktFault, WktKind};
use crate::pieces::{is_one, mark, separator, spot};
use crate::tokens::{Cursor, Span};
use sg_shape::{Path, Rings, Shape, Spot};
use std::alloc::{AllocError, Global};

/// The most spots of a shape, all rings together.
const MOST_SPOTS: usize = 2_048;

/// The fewest spots of a line.
const LEAST_OF_A_LINE: usize = 2;

/// The fewest spots of a ring; the last is the first.
const LEAST_OF_A_RING: usize = 4;

/// A line or a polygon, as far as its text was read.
#[derive(Drop)]
pub enum Draft {
    /// A line's spots.
    Line(Path),
    /// A polygon's whole rings, and the spots of the ring that is open.
    Polygon(Rings, Path),
}

/// What stands after a spot.
#[derive(Drop)]
pub enum Next {
    /// A further spot, which goes on with this draft.
    Spot(Draft),
    /// The end of this shape.
    Whole(Shape),
}

/// A draft's spots from here on, and what stands after the shape that they end.
pub fn spots(alloc: Global, draft: Draft, tokens: Cursor) -> Result<(Shape, Cursor), ReadShape>
    ensures { Reads (λ x. (x.0, left x.1)) result (spots most_spots draft (left tokens.entry)) }
{
    let mut draft = draft;
    let mut rest = tokens;
    let mut room = MOST_SPOTS;
    'spots: while room > 0 {
        let (next, after) = step(alloc, draft, rest)?;
        match next {
            Next::Whole(shape) => return Ok((shape, after)),
            Next::Spot(further) => draft = further,
        }
        rest = after;
        room -= 1;
    }
    Err(ReadShape::Fault(no_room(rest)))
}

/// What is wrong where no spot may stand any more.
#[tactic(auto, unfolding(crate::specs::Grammar::no_room))]
fn no_room(tokens: Cursor) -> WktFault
    ensures { no_room (left tokens.entry) ≡ Err result }
{
    match tokens.first() {
        Ok((token, _)) => token.fault(WktKind::TooMany),
        Err(fault) => fault,
    }
}

/// A spot, and what stands after it.
#[tactic(auto, unfolding(crate::specs::Grammar::step))]
fn step(alloc: Global, draft: Draft, tokens: Cursor) -> Result<(Next, Cursor), ReadShape>
    ensures { Reads (λ x. (x.0, left x.1)) result (step draft (left tokens.entry)) }
{
    let (place, rest) = spot(tokens)?;
    let draft = with_spot(draft, place)?;
    after_spot(alloc, draft, rest)
}

/// The draft with a further spot.
fn with_spot(draft: Draft, place: Spot) -> Result<Draft, AllocError>
    ensures { IfOk result (λ d. d ≡ with_spot draft place) }
{
    match draft {
        Draft::Line(mut spots) => {
            spots.push(place)?;
            Ok(Draft::Line(spots))
        }
        Draft::Polygon(rings, mut ring) => {
            ring.push(place)?;
            Ok(Draft::Polygon(rings, ring))
        }
    }
}

fn after_spot(alloc: Global, draft: Draft, tokens: Cursor) -> Result<(Next, Cursor), ReadShape>
    ensures { Reads (λ x. (x.0, left x.1)) result (after_spot draft (left tokens.entry)) }
{
    match draft {
        Draft::Line(spots) => Ok(after_line_spot(spots, tokens)?),
        Draft::Polygon(rings, ring) => after_ring_spot(alloc, rings, ring, tokens),
    }
}

/// After a line's spot: a comma and a further spot, or the bracket that ends the line.
#[tactic(auto, unfolding(crate::specs::Grammar::after_line_spot))]
fn after_line_spot(spots: Path, tokens: Cursor) -> Result<(Next, Cursor), WktFault>
    ensures { Gives (λ x. (x.0, left x.1)) result (after_line_spot spots (left tokens.entry)) }
{
    let (token, rest) = separator(tokens)?;
    if is_one(b',', token.bytes) {
        return Ok((Next::Spot(Draft::Line(spots)), rest));
    }
    let line = whole_line(token, spots)?;
    Ok((Next::Whole(line), rest))
}

/// After a ring's spot: a comma and a further spot, or the bracket that ends the ring.
#[tactic(auto, unfolding(crate::specs::Grammar::after_ring_spot))]
fn after_ring_spot(
    alloc: Global,
    rings: Rings,
    ring: Path,
    tokens: Cursor,
) -> Result<(Next, Cursor), ReadShape>
    ensures { Reads (λ x. (x.0, left x.1)) result (after_ring_spot rings ring (left tokens.entry)) }
{
    let (token, rest) = separator(tokens)?;
    if is_one(b',', token.bytes) {
        return Ok((Next::Spot(Draft::Polygon(rings, ring)), rest));
    }
    check_ring(token, &ring)?;
    let rings = with_ring(rings, ring)?;
    Ok(after_ring(alloc, rings, rest)?)
}

/// The rings with a further one.
fn with_ring(rings: Rings, ring: Path) -> Result<Rings, AllocError>
    ensures { IfOk result (λ all. all ≡ rings ++ ring ∷ []) }
{
    let mut rings = rings;
    match rings.push(ring) {
        Ok(()) => Ok(rings),
        Err(_) => Err(AllocError),
    }
}

/// After a ring: a comma, a bracket and the first spot of a further ring, or the bracket that ends the polygon.
#[tactic(auto, unfolding(crate::specs::Grammar::after_ring))]
fn after_ring(alloc: Global, rings: Rings, tokens: Cursor) -> Result<(Next, Cursor), WktFault>
    ensures { Gives (λ x. (x.0, left x.1)) result (after_ring rings (left tokens.entry)) }
{
    let (token, rest) = separator(tokens)?;
    if is_one(b',', token.bytes) {
        let rest = mark(b'(', rest)?;
        return Ok((Next::Spot(Draft::Polygon(rings, Path::new(alloc))), rest));
    }
    Ok((Next::Whole(Shape::Polygon(rings)), rest))
}

/// The line, whose bracket is this token.
fn whole_line(token: Span, spots: Path) -> Result<Shape, WktFault>
    ensures { result ≡ whole_line token.entry.at spots }
{
    if spots.len() < LEAST_OF_A_LINE {
        return Err(token.fault(WktKind::TooFew));
    }
    Ok(Shape::Line(spots))
}

/// What is wrong with a ring whose bracket is this token.
fn check_ring(token: Span, ring: &Path) -> Result<(), WktFault>
    ensures { Gives (λ _. ring.now) result (whole_ring token.entry.at ring.now) }
{
    if ring.len() < LEAST_OF_A_RING {
        return Err(token.fault(WktKind::TooFew));
    }
    if is_open(ring.as_slice()) {
        return Err(token.fault(WktKind::RingOpen));
    }
    Ok(())
}

/// Whether the last spot isn't the first.
fn is_open(ring: &[Spot]) -> bool
    ensures { result ≡ is_open ring.now }
{
    match ring {
        [first, .., last] => first != last,
        _ => false,
    }
}
