ghost use Rattle.std.specs.Prelude.{◌≡◌, ◌≤◌, ◌*◌, ◌/◌, ℤ, pos, ◌+ℤ◌, ◌≤ℤ◌};
ghost use Rattle.sg_cells.specs.Cells.{edge};

/// How far the low edge of a column lies from that of the first.
fn offset(size: u32, across: u32, at: u32) -> u32
    requires some { 1 ≤ across }
    requires column { at ≤ across }
    ensures offset { result ≡ at * size / across }
    ensures within { result ≤ size }
{
    (at as u64 * size as u64 / across as u64) as u32
}

/// The low edge of a column among `across` columns of a box, or of a row. The edge lies where the column
/// would begin if all had the same width, or less than one unit lower.
pub fn edge(low: i32, size: u32, across: u32, at: u32) -> i32
    requires some { 1 ≤ across }
    requires column { at ≤ across }
    requires least { pos 0 ≤ℤ (low +ℤ pos 16000000) }
    requires most { (low +ℤ pos size) ≤ℤ pos 16000000 }
    ensures { result ≡ edge low size across at }
{
    (low as i64 + offset(size, across, at) as i64) as i32
}
