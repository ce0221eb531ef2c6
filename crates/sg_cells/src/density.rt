ghost use Rattle.std.specs.Prelude.{◌≡◌, ◌≤◌, length};
ghost use Rattle.sg_hilbert.specs.Curve.{IsSide, doublings, two_to};
ghost use Rattle.sg_cells.specs.Densities.{power};

/// How finely a level splits each cell of the level above (SQL Server documentation, Spatial Indexes
/// Overview, "Grid density").
#[derive(Clone, Copy, Debug, PartialEq, Eq)]
pub enum Density {
    /// 4 columns and 4 rows.
    Low,
    /// 8 columns and 8 rows.
    Medium,
    /// 16 columns and 16 rows.
    High,
}

/// How many columns and rows a density makes.
pub fn side_of(density: Density) -> u8
    ensures side { IsSide result }
    ensures doublings { doublings result ≡ power density }
    ensures columns { result ≡ two_to (power density) }
    ensures most { result ≤ 16 }
{
    match density {
        Density::Low => 4,
        Density::Medium => 8,
        Density::High => 16,
    }
}

/// The same densities, which are four.
pub fn four_levels(levels: [Density; 4]) -> [Density; 4]
    ensures same { result ≡ levels }
    ensures four { length result ≡ 4 }
{
    levels
}
