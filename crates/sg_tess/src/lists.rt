ghost use Rattle.std.specs.Prelude.{◌≡◌, ◌++◌, [], IfOk, OnOk};
ghost use Rattle.sg_cells.specs.Lists.{IsApart};
ghost use Rattle.sg_tess.specs.Sights.{first_of};

use sg_cells::{Cell, CellList, Mark};
use std::alloc::{AllocError, Global};

/// Puts the cells last.
fn add_all(list: &mut CellList, entries: &[(Cell, Mark)]) -> Result<(), AllocError>
    requires apart { IsApart (list.old ++ entries.now) }
    ensures { OnOk result (list.new ≡ list.old ++ entries.now) }
{
    for &(cell, mark) in entries {
        list.push(cell, mark)?;
    }
    Ok(())
}

/// The list of cell 0, where the shape leaves the box, and of the cells in the box.
pub(crate) fn listed(
    alloc: Global,
    leaves: bool,
    entries: &[(Cell, Mark)],
) -> Result<CellList, AllocError>
    requires apart { IsApart (first_of leaves ++ entries.now) }
    ensures { IfOk result (λ list. list ≡ first_of leaves ++ entries.now) }
{
    let mut list = begun(alloc, leaves)?;
    add_all(&mut list, entries)?;
    Ok(list)
}

fn begun(alloc: Global, leaves: bool) -> Result<CellList, AllocError>
    ensures { IfOk result (λ list. list ≡ first_of leaves) }
{
    let mut list = CellList::new(alloc);
    if leaves {
        list.push(Cell::outside(), Mark::Part)?;
    }
    Ok(list)
}
