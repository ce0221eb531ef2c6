ghost use Rattle.std.specs.Prelude.{◌≡◌, ◌^◌, IfOk, OnOk};
ghost use Rattle.std.specs.BinaryHeap.{IsHeap, heap_items};
ghost use Rattle.sg_segment.specs.Ranges.{IsRatio};
ghost use Rattle.sg_sweep.specs.Events.{event_order};
ghost use Rattle.sg_shape.specs.Matrix.{IsMatrix};
ghost use Rattle.sg_shape.specs.Plane.{Parts};
ghost use Rattle.sg_shape.specs.Shapes.{parts_of};
ghost use Rattle.sg_shape.specs.Sound.{IsSound};
ghost use Rattle.sg_heights.specs.Tallies.{AllBelow};
ghost use Rattle.sg_sweep.specs.Pieces.{tags};
ghost use Rattle.sg_sweep.specs.Steps.{IsWalked, IsFanned, IsTurn};
ghost use Rattle.sg_sweep.specs.Aims.{IsFound, only_outside};
ghost use Rattle.sg_sweep.specs.Rungs.{Covers, IsWanted};

use crate::aims::Aim;
use crate::done::{is_done, no_pairs};
use crate::events::Event;
use crate::fronts::{count_begun, first_of, replace, rest_of, strands_between, strands_from};
use crate::parts::pieces_of;
use crate::pieces::Piece;
use crate::queues::{due_events, next_height, queue_crossings, queue_ends, queue_fan};
use crate::shares::shares_of;
use crate::sorting::{sort_above, sort_at};
use crate::stops::stops_at;
use crate::strand::Strand;
use crate::strands::{pieces_on, stops_on, strands_above, turns_on};
use crate::windows::window;
use sg_heights::walk_stops;
use sg_segment::Ratio;
use sg_shape::{Matrix, Shape};
use std::alloc::{AllocError, Global};
use std::collections::BinaryHeap;

/// Enters the pairs of statuses of a window of a height: of the points between its first stop and its last, and beside them.
fn walk_height(
    alloc: Global,
    front: &[Piece],
    height: Ratio,
    ahead: &[usize; 8],
    met: &mut Matrix,
) -> Result<(), AllocError>
    requires height { IsRatio height }
    requires ahead { AllBelow ahead.now (2 ^ 60) }
    ensures { OnOk result (IsWalked (tags front.now) height.top height.bottom ahead.now met.old met.new) }
{
    let mut stops = stops_at(alloc, front, height)?;
    sort_at(&mut stops, height)?;
    walk_stops(&stops, height, false, ahead, met);
    Ok(())
}

/// Enters those of the same window of the slab above, and gives its strands.
fn walk_above(
    alloc: Global,
    front: &[Piece],
    height: Ratio,
    ahead: &[usize; 8],
    met: &mut Matrix,
) -> Result<Vec<Strand>, AllocError>
    requires height { IsRatio height }
    requires ahead { AllBelow ahead.now (2 ^ 60) }
    ensures { IfOk result (λ fan. IsFanned (tags front.now) height.top height.bottom ahead.now met.old met.new fan.items) }
{
    let mut fan = strands_above(alloc, front, height)?;
    sort_above(&mut fan, height)?;
    let stops = stops_on(alloc, &fan)?;
    walk_stops(&stops, height, true, ahead, met);
    Ok(fan)
}

/// Enters the pairs of statuses of a height and of the slab above it, where those of the slab below it are entered. The
/// order becomes that of the strands above.
fn step(
    alloc: Global,
    order: &mut Vec<Strand>,
    queue: &mut BinaryHeap<Event>,
    taken: &[Piece],
    height: Ratio,
    met: &mut Matrix,
) -> Result<(), AllocError>
    requires height { IsRatio height }
    requires heap { IsHeap event_order (heap_items queue.old) }
    ensures heap { IsHeap event_order (heap_items queue.new) }
    ensures turn { OnOk result (IsTurn order.old.items (tags taken.now) height met.old met.new order.new.items (heap_items queue.old) (heap_items queue.new)) }
{
    let mut begun = stops_at(alloc, taken, height)?;
    sort_at(&mut begun, height)?;
    let due = due_events(alloc, queue, height)?;
    let part = window(order, &due, &begun, height);
    let ahead = turns_on(strands_from(order, part.to));
    let front = pieces_on(alloc, strands_between(order, part.from, part.to), taken)?;
    walk_height(alloc, &front, height, &ahead, met)?;
    let fan = walk_above(alloc, &front, height, &ahead, met)?;
    replace(alloc, order, part.from, part.to, &fan)?;
    queue_ends(taken, height, queue)?;
    queue_fan(order, part.from, &fan, queue)?;
    Ok(())
}

/// No pair of statuses but that of the points outside both.
fn only_outside() -> Matrix
    ensures { result ≡ only_outside }
{
    Matrix {
        oo: true,
        ..Matrix::none()
    }
}

/// The matrix of what these are the edges of, by heights from below upwards: of the points of the heights that count, or up
/// to where a pair that decides is met. It ends early once all wanted pairs are met, where points have no others.
fn sweep(alloc: Global, pieces: &[Piece], aim: &Aim) -> Result<Matrix, AllocError>
    ensures { (a b : Parts) → Covers a b (tags pieces.now) → IsWanted aim.now.wanted a b → IfOk result (IsFound aim.now.from aim.now.to aim.now.decides a b) }
{
    let (first, later) = shares_of(alloc, pieces, aim)?;
    let mut met = only_outside();
    let start = aim.start();
    let mut order = walk_above(alloc, &first, start, &turns_on(&[]), &mut met)?;
    let mut queue = BinaryHeap::new(alloc);
    queue_ends(&first, start, &mut queue)?;
    queue_crossings(&order, &mut queue)?;
    let mut begun = 0;
    let mut next = next_height(&queue, &later);
    while let Some(height) = next {
        if is_done(&met, aim, height) {
            return Ok(met);
        }
        let waiting = rest_of(&later, begun);
        let count = count_begun(waiting, height);
        let taken = first_of(waiting, count);
        step(alloc, &mut order, &mut queue, taken, height, &mut met)?;
        begun += count;
        next = next_height(&queue, rest_of(&later, begun));
    }
    Ok(met)
}

/// What a sweep of two shapes finds: exactly the pairs of statuses of the points of the heights that count, or a pair that
/// decides.
pub fn swept(alloc: Global, a: &Shape, b: &Shape, aim: &Aim) -> Result<Matrix, AllocError>
    requires first { IsSound a.now }
    requires second { IsSound b.now }
    requires wanted { IsWanted aim.now.wanted (parts_of a.now) (parts_of b.now) }
    ensures { IfOk result (IsFound aim.now.from aim.now.to aim.now.decides (parts_of a.now) (parts_of b.now)) }
{
    let pieces = pieces_of(alloc, a, b)?;
    sweep(alloc, &pieces, aim)
}

/// The matrix of two shapes, by a sweep of both. Points have no other pairs of statuses than the wanted ones.
pub fn swept_whole(
    alloc: Global,
    a: &Shape,
    b: &Shape,
    wanted: Matrix,
) -> Result<Matrix, AllocError>
    requires first { IsSound a.now }
    requires second { IsSound b.now }
    requires wanted { IsWanted wanted (parts_of a.now) (parts_of b.now) }
    ensures { IfOk result (λ matrix. IsMatrix matrix a.now b.now) }
{
    let aim = Aim {
        from: -16_000_001,
        to: 16_000_000,
        wanted,
        decides: no_pairs(),
    };
    swept(alloc, a, b, &aim)
}
