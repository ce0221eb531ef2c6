ghost use Rattle.std.specs.Prelude.{◌≡◌, IfOk};
ghost use Rattle.sg_shape.specs.Sound.{IsSound};
ghost use Rattle.sg_wkt.specs.Cursors.{Gives, Reads, left};
ghost use Rattle.sg_wkt.specs.Faults.{IsFault, OnFault};
ghost use Rattle.sg_wkt.specs.Grammar.{Answers, line, lone_shape, point, polygon, shape, shape_in};

use crate::drafts::{Draft, spots};
use crate::faults::{ReadShape, WktFault, WktKind};
use crate::pieces::{after_empty, is_word, mark, spot};
use crate::tokens::Cursor;
use sg_shape::{Kind, Path, Rings, Shape};
use std::alloc::Global;

/// The shape that a text spells, else the text's first fault from the left. The words are read in either
/// case, numbers have any length and stand for whole numbers alone. It takes time in proportion to the
/// text. `Ok` is sound. The fault's token alone, after those before it, is why the text isn't read.
pub fn read_wkt(alloc: Global, text: &[u8]) -> Result<Shape, ReadShape>
    ensures answer { Answers result (shape_in text.now) }
    ensures fault { OnFault result (IsFault text.now) }
    ensures sound { IfOk result IsSound }
{
    lone_shape(alloc, Cursor::new(text))
}

/// A shape, with nothing after it.
#[tactic(auto, unfolding(crate::specs::Grammar::lone_shape))]
fn lone_shape(alloc: Global, tokens: Cursor) -> Result<Shape, ReadShape>
    ensures { Answers result (lone_shape (left tokens.entry)) }
{
    let (shape, rest) = shape(alloc, tokens)?;
    match rest.token() {
        None => Ok(shape),
        Some((token, _)) => Err(ReadShape::Fault(token.fault(WktKind::After))),
    }
}

#[tactic(auto, unfolding(crate::specs::Grammar::shape))]
fn shape(alloc: Global, tokens: Cursor) -> Result<(Shape, Cursor), ReadShape>
    ensures { Reads (λ x. (x.0, left x.1)) result (shape (left tokens.entry)) }
{
    let (token, rest) = tokens.first()?;
    if is_word(b"POINT", token.bytes) {
        Ok(point(rest)?)
    } else if is_word(b"LINESTRING", token.bytes) {
        line(alloc, rest)
    } else if is_word(b"POLYGON", token.bytes) {
        polygon(alloc, rest)
    } else {
        Err(ReadShape::Fault(token.fault(WktKind::Keyword)))
    }
}

/// What stands after the word `POINT`.
#[tactic(auto, unfolding(crate::specs::Grammar::point, crate::specs::Grammar::point_body))]
fn point(tokens: Cursor) -> Result<(Shape, Cursor), WktFault>
    ensures { Gives (λ x. (x.0, left x.1)) result (point (left tokens.entry)) }
{
    if let Some(rest) = after_empty(tokens) {
        return Ok((Shape::Empty(Kind::Point), rest));
    }
    let rest = mark(b'(', tokens)?;
    let (place, rest) = spot(rest)?;
    let rest = mark(b')', rest)?;
    Ok((Shape::Point(place), rest))
}

/// What stands after the word `LINESTRING`.
#[tactic(auto, unfolding(crate::specs::Grammar::line, crate::specs::Grammar::line_body))]
fn line(alloc: Global, tokens: Cursor) -> Result<(Shape, Cursor), ReadShape>
    ensures { Reads (λ x. (x.0, left x.1)) result (line (left tokens.entry)) }
{
    if let Some(rest) = after_empty(tokens) {
        return Ok((Shape::Empty(Kind::Line), rest));
    }
    let rest = mark(b'(', tokens)?;
    spots(alloc, Draft::Line(Path::new(alloc)), rest)
}

/// What stands after the word `POLYGON`.
#[tactic(auto, unfolding(crate::specs::Grammar::polygon, crate::specs::Grammar::polygon_body))]
fn polygon(alloc: Global, tokens: Cursor) -> Result<(Shape, Cursor), ReadShape>
    ensures { Reads (λ x. (x.0, left x.1)) result (polygon (left tokens.entry)) }
{
    if let Some(rest) = after_empty(tokens) {
        return Ok((Shape::Empty(Kind::Polygon), rest));
    }
    let rest = mark(b'(', tokens)?;
    let rest = mark(b'(', rest)?;
    spots(
        alloc,
        Draft::Polygon(Rings::new(alloc), Path::new(alloc)),
        rest,
    )
}
