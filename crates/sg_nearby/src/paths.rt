ghost use Rattle.std.specs.Prelude.{◌≡◌, ◌≤◌, false, All, length, IfOk};
ghost use Rattle.sg_shape.specs.Sound.{is_out};
ghost use Rattle.sg_nearby.specs.Nearby.{IsThin};

use crate::sides::are_beside;
use sg_shape::{CellBox, Path, Spot};
use std::alloc::{AllocError, Global};

/// The fewest spots of a ring; the last is the first.
const LEAST_OF_A_RING: usize = 4;

/// The path without spots that don't matter in the box, but for the first and the last, as long as it has more
/// spots than a ring needs.
pub(crate) fn thin(alloc: Global, path: &[Spot], cell: &CellBox) -> Result<Path, AllocError>
    requires some { 2 ≤ length path.now }
    requires within { All (λ s. is_out s ≡ false) path.now }
    ensures { IfOk result (λ thin. IsThin cell.now path.now thin) }
{
    let mut kept = Path::new(alloc);
    let mut last = path[0];
    let mut spare = path.len().saturating_sub(LEAST_OF_A_RING);
    kept.push(last)?;
    for at in 1..path.len() - 1 {
        if spare > 0 && are_beside(cell, last, path[at], path[at + 1]) {
            spare -= 1;
        } else {
            last = path[at];
            kept.push(last)?;
        }
    }
    kept.push(path[path.len() - 1])?;
    Ok(kept)
}
