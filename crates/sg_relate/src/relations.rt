ghost use Rattle.std.specs.Prelude.{◌≡◌, ◌↔◌, IsTrue, IfOk};
ghost use Rattle.std.specs.Option.{unwrap_or};
ghost use Rattle.sg_shape.specs.Bounds.{IsBounds};
ghost use Rattle.sg_shape.specs.Matrix.{Relates};
ghost use Rattle.sg_shape.specs.Sound.{IsSound};
ghost use Rattle.sg_relate.specs.Boxes.{MayRelate, HasHeights};
ghost use Rattle.sg_relate.specs.Deciding.{SpeaksWithin, StandsFor, deciding};

use crate::boxes::{closed, common, heights, lies_in, may_relate};
use crate::points::point_relates;
use sg_nearby::nearby;
use sg_shape::{Bounds, Matrix, Pred, Shape};
use sg_sweep::statuses_within;
use std::alloc::{AllocError, Global};

/// The pairs of statuses that settle a relation, once some point has one of them: it then holds, if it is that of common
/// points, and else it doesn't.
fn deciding(pred: Pred) -> Matrix
    ensures { result ≡ deciding pred }
{
    let first = matches!(pred, Pred::Within | Pred::Equals);
    let second = matches!(pred, Pred::Contains | Pred::Equals);
    let common = matches!(pred, Pred::Intersects);
    Matrix {
        ii: matches!(pred, Pred::Intersects | Pred::Touches),
        ib: common,
        io: first,
        bi: common,
        bb: common,
        bo: first,
        oi: second,
        ob: second,
        oo: false,
    }
}

/// Whether two shapes are so related. `Err` comes for want of memory alone.
pub fn relates(alloc: Global, a: &Shape, b: &Shape, pred: Pred) -> Result<bool, AllocError>
    requires first { IsSound a.now }
    requires second { IsSound b.now }
    ensures { IfOk result (λ yes. IsTrue yes ↔ Relates pred a.now b.now) }
{
    match (a.bounds(), b.bounds()) {
        (Some(first), Some(second)) => bounded_relate(alloc, a, first, b, second, pred),
        (None, _) | (_, None) => Ok(false),
    }
}

/// The same of shapes that have these bounds: their boxes may rule the relation out, what is asked of a point its status
/// settles, and other shapes are swept.
fn bounded_relate(
    alloc: Global,
    a: &Shape,
    first: Bounds,
    b: &Shape,
    second: Bounds,
    pred: Pred,
) -> Result<bool, AllocError>
    requires a { IsSound a.now }
    requires b { IsSound b.now }
    requires first { IsBounds first a.now }
    requires second { IsBounds second b.now }
    ensures { IfOk result (λ yes. IsTrue yes ↔ Relates pred a.now b.now) }
{
    if !may_relate(pred, first, second) {
        return Ok(false);
    }
    match (a, b) {
        (Shape::Point(spot), _) => Ok(point_relates(*spot, b, pred)),
        (_, Shape::Point(spot)) => Ok(point_relates(*spot, a, pred)),
        _ => relate_near(alloc, a, first, b, second, pred),
    }
}

/// The same of shapes whose boxes allow the relation. It speaks of points of the boxes' common places alone, so each shape
/// is taken as it is near these.
fn relate_near(
    alloc: Global,
    a: &Shape,
    first: Bounds,
    b: &Shape,
    second: Bounds,
    pred: Pred,
) -> Result<bool, AllocError>
    requires a { IsSound a.now }
    requires b { IsSound b.now }
    requires first { IsBounds first a.now }
    requires second { IsBounds second b.now }
    requires may { MayRelate pred first second }
    ensures { IfOk result (λ yes. IsTrue yes ↔ Relates pred a.now b.now) }
{
    let shared = common(first, second);
    let near_first = near(alloc, a, first, shared)?;
    let near_second = near(alloc, b, second, shared)?;
    let yes = swept(
        alloc,
        chosen(&near_first, a),
        chosen(&near_second, b),
        shared,
        pred,
    )?;
    Ok(yes)
}

/// What does for the shape in the box, where that is not the shape itself: where the bounds lie in the box nothing could
/// be left out.
fn near(
    alloc: Global,
    shape: &Shape,
    bounds: Bounds,
    shared: Bounds,
) -> Result<Option<Shape>, AllocError>
    requires sound { IsSound shape.now }
    requires bounds { IsBounds bounds shape.now }
    ensures { IfOk result (λ part. StandsFor bounds shared shape.now (unwrap_or part shape.now)) }
{
    if lies_in(bounds, shared) {
        return Ok(None);
    }
    let part = nearby(alloc, shape, &closed(shared))?;
    Ok(Some(part))
}

/// The part, if there is one, and else the whole.
fn chosen<'a>(part: &'a Option<Shape>, whole: &'a Shape) -> &'a Shape
    ensures { result.now ≡ unwrap_or part.now whole.now }
{
    match part {
        Some(near) => near,
        None => whole,
    }
}

/// The same of shapes of which the relation speaks in the box alone: its heights are swept up to where it is settled.
fn swept(
    alloc: Global,
    a: &Shape,
    b: &Shape,
    shared: Bounds,
    pred: Pred,
) -> Result<bool, AllocError>
    requires first { IsSound a.now }
    requires second { IsSound b.now }
    requires heights { HasHeights shared }
    requires within { SpeaksWithin pred shared a.now b.now }
    ensures { IfOk result (λ yes. IsTrue yes ↔ Relates pred a.now b.now) }
{
    let met = statuses_within(alloc, a, b, heights(shared), deciding(pred))?;
    Ok(met.satisfies(pred))
}
