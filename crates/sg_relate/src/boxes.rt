ghost use Rattle.std.specs.Prelude.{◌≡◌, ◌↔◌, ◌≤ℤ◌, IsTrue};
ghost use Rattle.std.specs.Int.{int_min, int_max};
ghost use Rattle.sg_relate.specs.Boxes.{IsGap, AreApart, IsPart, LiesIn, MayRelate, HasHeights, common, closed};

use sg_shape::{Bounds, CellBox, Pred};
use sg_sweep::Heights;

/// Whether the boxes lie apart in x.
fn is_gap_across(a: Bounds, b: Bounds) -> bool
    ensures { IsTrue result ↔ IsGap a.xmin a.xmax b.xmin b.xmax }
{
    a.xmax < b.xmin || b.xmax < a.xmin
}

/// Whether they lie apart in y.
fn is_gap_up(a: Bounds, b: Bounds) -> bool
    ensures { IsTrue result ↔ IsGap a.ymin a.ymax b.ymin b.ymax }
{
    a.ymax < b.ymin || b.ymax < a.ymin
}

/// Whether the one box ends before the other begins, in x or in y.
fn are_apart(a: Bounds, b: Bounds) -> bool
    ensures { IsTrue result ↔ AreApart a b }
{
    is_gap_across(a, b) || is_gap_up(a, b)
}

/// Whether the first number is at most the second.
fn is_at_most(a: i32, b: i32) -> bool
    ensures { IsTrue result ↔ a ≤ℤ b }
{
    a <= b
}

/// Whether each x of the first box is one of the second.
fn is_part_across(a: Bounds, b: Bounds) -> bool
    ensures { IsTrue result ↔ IsPart a.xmin a.xmax b.xmin b.xmax }
{
    is_at_most(b.xmin, a.xmin) && is_at_most(a.xmax, b.xmax)
}

/// Whether each y of the first box is one of the second.
fn is_part_up(a: Bounds, b: Bounds) -> bool
    ensures { IsTrue result ↔ IsPart a.ymin a.ymax b.ymin b.ymax }
{
    is_at_most(b.ymin, a.ymin) && is_at_most(a.ymax, b.ymax)
}

/// Whether the first box lies in the second.
pub fn lies_in(a: Bounds, b: Bounds) -> bool
    ensures { IsTrue result ↔ LiesIn a b }
{
    is_part_across(a, b) && is_part_up(a, b)
}

/// Whether shapes with these boxes may be so related.
pub fn may_relate(pred: Pred, a: Bounds, b: Bounds) -> bool
    ensures { IsTrue result ↔ MayRelate pred a b }
{
    match pred {
        Pred::Intersects | Pred::Touches => !are_apart(a, b),
        Pred::Contains => lies_in(b, a),
        Pred::Within => lies_in(a, b),
        Pred::Equals => lies_in(a, b) && lies_in(b, a),
    }
}

/// The higher of two numbers.
fn higher(a: i32, b: i32) -> i32
    ensures { result ≡ int_max a b }
{
    a.max(b)
}

/// The lower of two numbers.
fn lower(a: i32, b: i32) -> i32
    ensures { result ≡ int_min a b }
{
    a.min(b)
}

/// The common places of two boxes.
pub fn common(a: Bounds, b: Bounds) -> Bounds
    ensures { result ≡ common a b }
{
    Bounds {
        xmin: higher(a.xmin, b.xmin),
        ymin: higher(a.ymin, b.ymin),
        xmax: lower(a.xmax, b.xmax),
        ymax: lower(a.ymax, b.ymax),
    }
}

/// The box with all its sides.
pub fn closed(bounds: Bounds) -> CellBox
    ensures { result ≡ closed bounds }
{
    CellBox {
        xlow: bounds.xmin,
        ylow: bounds.ymin,
        xhigh: bounds.xmax,
        yhigh: bounds.ymax,
        closed_x: true,
        closed_y: true,
    }
}

/// The heights of a box.
pub fn heights(bounds: Bounds) -> Heights
    requires { HasHeights bounds }
    ensures low { result.low ≡ bounds.ymin }
    ensures high { result.high ≡ bounds.ymax }
{
    Heights {
        low: bounds.ymin,
        high: bounds.ymax,
    }
}
