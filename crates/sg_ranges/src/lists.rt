ghost use Rattle.std.specs.Prelude.{◌≡◌, [], ◌∷◌, ◌++◌, length, slice_get, OnOk, OnErr, IfErr};
ghost use Rattle.sg_ranges.specs.Pairs.{AreRanges};

use sg_cells::Cell;
use sg_shape::{Back, Items};
use std::alloc::Global;
use std::marker::Model;

/// Ranges of cells, each from its first cell to its last. They rise by id, and none overlaps another.
#[derive(Drop)]
pub struct Ranges {
    pairs: Items<(Cell, Cell)>,
}

impl Model for Ranges {
    ghost use Rattle.std.specs.Prelude.{List};
    ghost use Rattle.sg_ranges.specs.Pairs.{Pair, AreRanges};

    ghost Value = { List Pair };

    ghost view = { λ list. list.pairs };

    ghost invariant = { λ list. AreRanges list.pairs };
}

impl Ranges {
    /// No ranges. It takes no memory, and keeps the allocator for its own growth.
    pub fn new(alloc: Global) -> Ranges
        ensures { result ≡ [] }
    {
        Ranges {
            pairs: Items::new(alloc),
        }
    }

    /// Puts a range last: its first cell is its last or stands before it, and both stand behind all other ranges.
    /// Without memory for it the list stays as it was.
    pub fn push(&mut self, range: (Cell, Cell)) -> Result<(), Back<(Cell, Cell)>>
        requires { AreRanges (self.old ++ range ∷ []) }
        ensures ok { OnOk result (self.new ≡ self.old ++ range ∷ []) }
        ensures err { OnErr result (self.new ≡ self.old) }
        ensures back { IfErr result (λ back. back.item ≡ range) }
    {
        self.pairs.push(range)
    }

    /// How many ranges there are.
    pub fn len(&self) -> usize
        ensures { result ≡ length self.now }
    {
        self.pairs.len()
    }

    /// The first and last cell of the range at a place, counted from 0: `None` exactly past the end.
    pub fn at(&self, place: usize) -> Option<(Cell, Cell)>
        ensures { result ≡ slice_get self.now place }
    {
        let pairs = self.pairs.as_slice();
        if place < pairs.len() {
            Some(pairs[place])
        } else {
            None
        }
    }

    /// All ranges, in order.
    pub fn as_slice(&self) -> &[(Cell, Cell)]
        ensures all { result.now ≡ self.now }
        ensures rising { AreRanges self.now }
    {
        self.pairs.as_slice()
    }
}
