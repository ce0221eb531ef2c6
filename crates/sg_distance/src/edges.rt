ghost use Rattle.std.specs.Prelude.{◌≡◌, ◌≤◌, nat_abs, pos};
ghost use lib.IntN.{◌+ℤ◌, ◌-ℤ◌, ◌*ℤ◌};
ghost use Rattle.sg_segment.specs.Sides.{cross};
ghost use Rattle.sg_distance.specs.Edges.{dot_at, gap_at, below, foot_test, spot_test, cross_test, edges_test, one_side, two_sides};
ghost use Rattle.sg_shape.specs.Limits.{IsIn};
ghost use Rattle.sg_distance.specs.Shapes.{are_near};

use crate::boxes::{are_apart, box_of};
use sg_segment::{difference, narrow_product, orient, product};
use sg_shape::{Edge, Spot};

/// A distance that two points are to meet: below `distance` where it is strict, else at most that.
#[derive(Clone, Copy, Debug)]
pub struct Limit {
    /// In units of the coordinates: 0 to 64,000,000.
    pub distance: u32,
    pub strict: bool,
}

fn total(a: i64, b: i64) -> i64
    requires first { nat_abs a ≤ 1024000000000000 }
    requires second { nat_abs b ≤ 1024000000000000 }
    ensures value { result ≡ a +ℤ b }
    ensures small { nat_abs result ≤ 2048000000000000 }
{
    a + b
}

/// Where `c` lies along the edge from `a` to `b`: 0 at `a`.
fn along(a: Spot, b: Spot, c: Spot) -> i64
    requires first { IsIn a }
    requires second { IsIn b }
    requires third { IsIn c }
    ensures value { result ≡ dot_at a b c }
    ensures small { nat_abs result ≤ 2048000000000000 }
{
    let run = narrow_product(difference(c.x, a.x), difference(b.x, a.x));
    let rise = narrow_product(difference(c.y, a.y), difference(b.y, a.y));
    total(run, rise)
}

/// The square of a distance.
fn square(distance: u32) -> i64
    requires { distance ≤ 64000000 }
    ensures value { result ≡ pos distance *ℤ pos distance }
    ensures small { nat_abs result ≤ 4096000000000000 }
{
    i64::from(distance) * i64::from(distance)
}

/// Whether a * a is below b * c, or at most.
fn square_below(strict: bool, a: i64, b: i64, c: i64) -> bool
    requires first { nat_abs a ≤ 4096000000000000 }
    requires second { nat_abs b ≤ 4096000000000000 }
    requires third { nat_abs c ≤ 4096000000000000 }
    ensures { result ≡ below strict (a *ℤ a) (b *ℤ c) }
{
    let square = product(i128::from(a), i128::from(a));
    let bound = product(i128::from(b), i128::from(c));
    if strict {
        square < bound
    } else {
        square <= bound
    }
}

/// Whether a is below b, or at most.
fn is_below(strict: bool, a: i64, b: i64) -> bool
    ensures { result ≡ below strict a b }
{
    if strict { a < b } else { a <= b }
}

/// Whether the foot of `c` lies strictly within the edge and the edge's line is near; `bound` is the squared distance.
fn foot_is_near(strict: bool, bound: i64, c: Spot, e: Edge) -> bool
    requires first { IsIn c }
    requires second { IsIn e.from }
    requires third { IsIn e.to }
    requires fourth { nat_abs bound ≤ 4096000000000000 }
    ensures { result ≡ foot_test strict bound c e }
{
    let place = along(e.from, e.to, c);
    let length = along(e.from, e.to, e.to);
    if place <= 0 {
        return false;
    }
    if length <= place {
        return false;
    }
    square_below(strict, orient(e.from, e.to, c), bound, length)
}

/// Whether `c` is near the edge.
fn spot_is_near(strict: bool, bound: i64, c: Spot, e: Edge) -> bool
    requires first { IsIn c }
    requires second { IsIn e.from }
    requires third { IsIn e.to }
    requires fourth { nat_abs bound ≤ 4096000000000000 }
    ensures { result ≡ spot_test strict bound c e }
{
    if is_below(strict, along(e.from, c, c), bound) {
        return true;
    }
    if is_below(strict, along(e.to, c, c), bound) {
        return true;
    }
    foot_is_near(strict, bound, c, e)
}

/// Whether the two numbers lie strictly on two sides of 0.
fn apart(a: i64, b: i64) -> bool
    ensures { result ≡ two_sides a b }
{
    (a < 0 && 0 < b) || (b < 0 && 0 < a)
}

/// Whether the two numbers lie strictly on one side of 0.
fn together(a: i64, b: i64) -> bool
    ensures { result ≡ one_side a b }
{
    (0 < a && 0 < b) || (a < 0 && b < 0)
}

/// Whether the edges cross, where no end of one need lie on the other.
fn crosses(e: Edge, f: Edge) -> bool
    requires first { IsIn e.from }
    requires second { IsIn e.to }
    requires third { IsIn f.from }
    requires fourth { IsIn f.to }
    ensures { result ≡ cross_test e f }
{
    if together(orient(f.from, f.to, e.from), orient(f.from, f.to, e.to)) {
        return false;
    }
    apart(orient(e.from, e.to, f.from), orient(e.from, e.to, f.to))
}

/// Whether some point of the one edge and some point of the other have a squared distance below `bound`, or at most.
fn pair_is_near(strict: bool, bound: i64, e: Edge, f: Edge) -> bool
    requires first { IsIn e.from }
    requires second { IsIn e.to }
    requires third { IsIn f.from }
    requires fourth { IsIn f.to }
    requires fifth { nat_abs bound ≤ 4096000000000000 }
    ensures { result ≡ edges_test strict bound e f }
{
    if crosses(e, f) {
        return true;
    }
    if spot_is_near(strict, bound, f.from, e) {
        return true;
    }
    if spot_is_near(strict, bound, f.to, e) {
        return true;
    }
    if spot_is_near(strict, bound, e.from, f) {
        return true;
    }
    spot_is_near(strict, bound, e.to, f)
}

/// Whether some point of the one edge and some point of the other meet the limit.
pub fn edges_are_near(limit: Limit, e: Edge, f: Edge) -> bool
    requires first { IsIn e.from }
    requires second { IsIn e.to }
    requires third { IsIn f.from }
    requires fourth { IsIn f.to }
    requires fifth { limit.distance ≤ 64000000 }
    ensures { result ≡ are_near limit e f }
{
    if are_apart(limit.distance, box_of(e), box_of(f)) {
        return false;
    }
    pair_is_near(limit.strict, square(limit.distance), e, f)
}
