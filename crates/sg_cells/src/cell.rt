ghost use Rattle.std.specs.Prelude.{◌≡◌, ◌≤◌, ◌<◌, ◌-◌, ◌*◌, ◌^◌, ◌++◌, [], ◌∷◌, length, slice_index, MatchOption, refl};
ghost use Rattle.sg_cells.specs.Cells.{IsCode, id_of, last_of, last_path, path_of, weight, contains, front};
ghost use Rattle.std.specs.Cmp.{partial_equiv_from_equiv, partial_order_from_agreeing_total};
ghost use Rattle.std.specs.Ordering.{eq_by_cmp, nat_cmp, on, as_partial_cmp};
ghost use Rattle.std.proofs.lemmas.Cmp.{eq_by_cmp_equiv, nat_cmp_total, on_total};

use std::cmp::Ordering;
use std::marker::Model;

/// A cell of a grid: the places of its ancestors and its own, from level 1 down, a byte each, and how many they
/// are. Levels 1 to 4 stand in `upper` and 5 to 8 in `lower`, so that a cell takes 12 bytes. Cells are ordered by
/// their ids.
#[derive(Clone, Debug, Default, Drop)]
pub struct Cell {
    upper: u32,
    lower: u32,
    level: u8,
}

impl Copy for Cell {}

impl Model for Cell {
    ghost use Rattle.std.specs.Prelude.{◌≡◌, ◌/◌, ◌%◌, List, ℕ};
    ghost use Rattle.sg_cells.specs.Cells.{IsStored, stored_id, id_of, path_of};

    ghost Value = { List ℕ };

    ghost view = { λ c. path_of 8 (stored_id c.upper c.lower c.level) };

    ghost invariant = { λ c. IsStored c.upper c.lower c.level };

    ghost inverse = { λ p. record { upper = id_of 8 p / 1099511627776; lower = id_of 8 p / 256 % 4294967296; level = id_of 8 p % 256 } };

    ghost inverse_ok = { λ a h. λ i. record { upper = h.high i; lower = h.middle i; level = h.low i } };
}

impl PartialEq for Cell {
    ghost eq = { eq_by_cmp (on (id_of 8) nat_cmp) };

    ghost laws = { partial_equiv_from_equiv (eq_by_cmp_equiv (on_total (id_of 8) nat_cmp_total)) };

    fn eq(&self, other: &Cell) -> bool {
        self.id() == other.id()
    }
}

impl Eq for Cell {
    ghost laws = { eq_by_cmp_equiv (on_total (id_of 8) nat_cmp_total) };
}

impl PartialOrd for Cell {
    ghost partial_cmp = { as_partial_cmp (on (id_of 8) nat_cmp) };

    ghost laws = { partial_order_from_agreeing_total (on (id_of 8) nat_cmp) (on_total (id_of 8) nat_cmp_total) (λ x y. refl) (λ x y. refl) };

    fn partial_cmp(&self, other: &Cell) -> Option<Ordering> {
        Some(self.cmp(other))
    }
}

impl Ord for Cell {
    ghost cmp = { on (id_of 8) nat_cmp };

    ghost total = { on_total (id_of 8) nat_cmp_total };

    ghost matches_partial_cmp = { λ x y. refl };

    ghost matches_eq = { λ x y. refl };

    fn cmp(&self, other: &Cell) -> Ordering {
        self.id().cmp(&other.id())
    }
}

impl Cell {
    /// Cell 0, which has all points outside the box.
    pub fn outside() -> Cell
        ensures { result ≡ [] }
    {
        Cell {
            upper: 0,
            lower: 0,
            level: 0,
        }
    }

    /// The number by which cells are ordered: the place at level 1 times 2^64, that at level 2 times 2^56,
    /// and so on down to 2^8 at level 8, and the level. It is 0 for cell 0.
    pub fn id(&self) -> u128
        ensures { result ≡ id_of 8 self.now }
    {
        (self.upper as u128 * 4_294_967_296 + self.lower as u128) * 256 + self.level as u128
    }

    /// The cell of an id.
    fn of(id: u128) -> Cell
        requires code { IsCode 8 (path_of 8 id) }
        requires back { id_of 8 (path_of 8 id) ≡ id }
        ensures { result ≡ path_of 8 id }
    {
        Cell {
            upper: (id >> 40) as u32,
            lower: ((id >> 8) % 4_294_967_296) as u32,
            level: (id % 256) as u8,
        }
    }

    /// That the id has a byte for each place, for a proof that rests on it. It does nothing.
    #[inline(always)]
    pub fn in_bytes(&self)
        ensures code { IsCode 8 self.now }
        ensures id { id_of 8 self.now < 2 ^ 128 }
    {
        let _level = &self.level;
    }

    /// How far down the cell lies: 1 to 8, and 0 for cell 0.
    pub fn level(&self) -> u8
        ensures level { result ≡ length self.now }
        ensures most { result ≤ 8 }
    {
        self.level
    }

    /// The cell's place at a level among the cells of that level with the same parent, along the curve.
    /// The level is 1 to the cell's own.
    pub fn place(&self, level: u8) -> u8
        requires least { 1 ≤ level }
        requires most { level ≤ length self.now }
        ensures { result ≡ slice_index self.now (level - 1) }
    {
        self.in_bytes();
        ((self.id() >> shift_of(level)) % 256) as u8
    }

    /// The cell that this one was split from: none exactly for cell 0 and at level 1.
    pub fn parent(&self) -> Option<Cell>
        ensures { MatchOption result (length self.now ≤ 1) (λ parent. (2 ≤ length self.now) × (parent ≡ front (length self.now - 1) self.now)) }
    {
        let level = self.level();
        if level <= 1 {
            return None;
        }
        Some(self.front(level - 1))
    }

    /// Whether the other is this cell or lies in it. Cell 0 contains itself alone.
    pub fn contains(&self, other: Cell) -> bool
        ensures { result ≡ contains self.now other }
    {
        self.in_bytes();
        other.in_bytes();
        self.id() <= other.id() && other.id() <= self.last_below().id()
    }

    /// The cell with the last id among this one and all that can lie in it: each place below its own is
    /// 255, and the level 8. For cell 0 it is cell 0. It need not be a cell of a grid.
    pub fn last_below(&self) -> Cell
        ensures path { result ≡ last_path 8 self.now }
        ensures last { id_of 8 result ≡ last_of 8 self.now }
    {
        let level = self.level();
        if level == 0 {
            return *self;
        }
        self.in_bytes();
        Cell::of(self.id() - level as u128 + (unit_of(level) - 256) + 8)
    }

    /// The same cell, whose places are below 256.
    pub(crate) fn coded(self) -> Cell
        ensures same { result ≡ self }
        ensures code { IsCode 8 self }
    {
        self
    }

    /// The cell at a place within this one; of cell 0, the cell of level 1. The level is 0 to 7.
    pub(crate) fn with_place(&self, place: u8) -> Cell
        requires { length self.now < 8 }
        ensures { result ≡ self.now ++ place ∷ [] }
    {
        let level = self.level();
        self.in_bytes();
        Cell::of(self.id() + place as u128 * unit_of(level + 1) + 1)
    }

    /// The cell's ancestor at a level, or the cell at its own. The level is 1 to the cell's own.
    pub fn front(&self, level: u8) -> Cell
        requires least { 1 ≤ level }
        requires most { level ≤ length self.now }
        ensures { result ≡ front level self.now }
    {
        self.in_bytes();
        let places = (self.id() >> shift_of(level)) * unit_of(level);
        Cell::of(places + level as u128)
    }
}

/// How many bits of an id stand below the place of a level.
fn shift_of(level: u8) -> u32
    requires least { 1 ≤ level }
    requires most { level ≤ 8 }
    ensures shift { result ≡ 8 * (9 - level) }
{
    8 * (9 - level as u32)
}

/// What one place of a level counts.
fn unit_of(level: u8) -> u128
    requires least { 1 ≤ level }
    requires most { level ≤ 8 }
    ensures unit { result ≡ weight (9 - level) }
    ensures some { 256 ≤ result }
    ensures most { result ≤ 18446744073709551616 }
{
    1 << shift_of(level)
}
