ghost use Rattle.std.specs.Prelude.{◌≡◌, ◌≤◌, ◌<◌, ◌+◌, ◌-◌, ◌*◌};
ghost use Rattle.sg_hilbert.specs.Curve.{IsSide, doublings, two_to, four_to, in_quarter, spot_at, place_at};

/// A spot on the curve of one of the four quarters, which are counted from 0 along the whole curve.
#[derive(Clone, Copy)]
struct QuarterSpot {
    quarter: u8,
    x: u8,
    y: u8,
}

/// The place on the curve of the spot in column `x` and row `y` of a square of the side 4, 8 or 16.
/// Columns and rows are below the side.
pub fn place_of(side: u8, x: u8, y: u8) -> u8
    requires side { IsSide side }
    requires column { x < side }
    requires row { y < side }
    ensures place { result ≡ place_at (doublings side) x y }
    ensures spot { spot_at (doublings side) result ≡ (x, y) }
    ensures below { result < side * side }
{
    place_from(doublings(side), x, y)
}

/// The column and the row of a place on the curve of the side 4, 8 or 16. Places are below the square of
/// the side.
pub fn spot_of(side: u8, place: u8) -> (u8, u8)
    requires side { IsSide side }
    requires place { place < side * side }
    ensures spot { result ≡ spot_at (doublings side) place }
    ensures place { place_at (doublings side) result.0 result.1 ≡ place }
    ensures column { result.0 < side }
    ensures row { result.1 < side }
{
    spot_from(doublings(side), place)
}

/// How many doublings of 1 make the side.
fn doublings(side: u8) -> u8
    requires { IsSide side }
    ensures count { result ≡ doublings side }
    ensures side { two_to result ≡ side }
    ensures places { four_to result ≡ side * side }
    ensures most { result ≤ 4 }
{
    match side {
        4 => 2,
        8 => 3,
        _ => 4,
    }
}

/// The side after k doublings.
fn side_after(k: u8) -> u8
    requires { k ≤ 3 }
    ensures side { result ≡ two_to k }
    ensures least { 1 ≤ result }
    ensures most { result ≤ 8 }
{
    match k {
        0 => 1,
        1 => 2,
        2 => 4,
        _ => 8,
    }
}

/// The number of places after k doublings.
fn places_after(k: u8) -> u8
    requires { k ≤ 3 }
    ensures places { result ≡ four_to k }
    ensures least { 1 ≤ result }
    ensures most { result ≤ 64 }
{
    match k {
        0 => 1,
        1 => 4,
        2 => 16,
        _ => 64,
    }
}

/// The spot of a place after k doublings.
fn spot_from(k: u8, place: u8) -> (u8, u8)
    requires count { k ≤ 4 }
    requires place { place < four_to k }
    ensures spot { result ≡ spot_at k place }
    ensures column { result.0 < two_to k }
    ensures row { result.1 < two_to k }
{
    if k == 0 {
        return (0, 0);
    }
    let places = places_after(k - 1);
    let (x, y) = spot_from(k - 1, place % places);
    in_quarter(place / places, side_after(k - 1), x, y)
}

/// The place of a spot after k doublings.
fn place_from(k: u8, x: u8, y: u8) -> u8
    requires count { k ≤ 4 }
    requires column { x < two_to k }
    requires row { y < two_to k }
    ensures place { result ≡ place_at k x y }
    ensures below { result < four_to k }
{
    if k == 0 {
        return 0;
    }
    let own = own_quarter(side_after(k - 1), x, y);
    let place = place_from(k - 1, own.x, own.y);
    after_quarters(own.quarter, places_after(k - 1), place)
}

/// A spot of the curve of side n, once that curve fills a quarter of side 2 * n.
fn in_quarter(quarter: u8, n: u8, x: u8, y: u8) -> (u8, u8)
    requires side { n ≤ 8 }
    requires column { x < n }
    requires row { y < n }
    ensures { result ≡ in_quarter quarter n (x, y) }
{
    match quarter {
        0 => (y, x),
        1 => (x, y + n),
        2 => (x + n, y + n),
        _ => (2 * n - 1 - y, n - 1 - x),
    }
}

/// The quarter of side 2 * n that a spot lies in, and the spot on the curve of side n that fills it.
fn own_quarter(n: u8, x: u8, y: u8) -> QuarterSpot
    requires side { n ≤ 8 }
    requires column { x < 2 * n }
    requires row { y < 2 * n }
    ensures quarter { result.quarter < 4 }
    ensures column { result.x < n }
    ensures row { result.y < n }
    ensures same_column { (in_quarter result.quarter n (result.x, result.y)).0 ≡ x }
    ensures same_row { (in_quarter result.quarter n (result.x, result.y)).1 ≡ y }
{
    match (x < n, y < n) {
        (true, true) => QuarterSpot {
            quarter: 0,
            x: y,
            y: x,
        },
        (true, false) => QuarterSpot {
            quarter: 1,
            x,
            y: y - n,
        },
        (false, false) => QuarterSpot {
            quarter: 2,
            x: x - n,
            y: y - n,
        },
        (false, true) => QuarterSpot {
            quarter: 3,
            x: n - 1 - y,
            y: 2 * n - 1 - x,
        },
    }
}

/// A place of a quarter among the places of the whole: those of the quarters before come first.
fn after_quarters(quarter: u8, places: u8, place: u8) -> u8
    requires quarter { quarter < 4 }
    requires places { places ≤ 64 }
    requires place { place < places }
    ensures place { result ≡ quarter * places + place }
    ensures below { result < 4 * places }
{
    quarter * places + place
}
