ghost use Rattle.std.specs.Prelude.{◌≡◌, ◌↔◌, ◌⊎◌, IsTrue};
ghost use Rattle.sg_modes.specs.Modes.{is_compatible};

/// A mode in which a session holds a key. The range modes lock the gap below the key too.
///
/// The names are those of SQL Server's Transaction Locking and Row Versioning Guide, "Key-range
/// locking"; which of them go together is this project's own choice, [`compatible`].
#[derive(Clone, Copy, PartialEq, Eq, PartialOrd, Ord, Debug)]
pub enum Mode {
    /// Shared: the key is read.
    S,
    /// Update: the key is read and may be written later.
    U,
    /// Exclusive: the key is written.
    X,
    /// The gap and the key are read.
    RangeSS,
    /// The gap is read, and the key may be written later.
    RangeSU,
    /// A key is to be put into the gap. It is only asked for: no session holds it.
    RangeIN,
    /// The gap and the key are written.
    RangeXX,
}

/// Whether a session may get a key in the mode `asked` while another holds the key in `held`.
pub fn compatible(held: Mode, asked: Mode) -> bool
    ensures { result ≡ is_compatible held asked }
{
    match asked {
        Mode::S => !matches!(held, Mode::X | Mode::RangeXX),
        Mode::U => matches!(held, Mode::S | Mode::RangeSS | Mode::RangeIN),
        Mode::X => matches!(held, Mode::RangeIN),
        Mode::RangeSS => matches!(held, Mode::S | Mode::U | Mode::RangeSS | Mode::RangeSU),
        Mode::RangeSU => matches!(held, Mode::S | Mode::RangeSS),
        Mode::RangeIN => matches!(held, Mode::S | Mode::U | Mode::X | Mode::RangeIN),
        Mode::RangeXX => false,
    }
}

/// Whether a key held in this mode keeps other sessions from putting keys into the gap below it.
pub fn is_range(mode: Mode) -> bool
    ensures { IsTrue result ↔ (mode ≡ Mode.RangeSS) ⊎ (mode ≡ Mode.RangeSU) ⊎ (mode ≡ Mode.RangeXX) }
{
    matches!(mode, Mode::RangeSS | Mode::RangeSU | Mode::RangeXX)
}

#[cfg(test)]
mod tests {
    use super::{Mode, compatible, is_range};

    const YES: bool = true;

    const NOT: bool = false;

    const MODES: [Mode; 7] = [
        Mode::S,
        Mode::U,
        Mode::X,
        Mode::RangeSS,
        Mode::RangeSU,
        Mode::RangeIN,
        Mode::RangeXX,
    ];

    // A row for each mode asked for, a column for each mode held, in the order of `MODES`.
    const TABLE: [[bool; 7]; 7] = [
        [YES, YES, NOT, YES, YES, YES, NOT],
        [YES, NOT, NOT, YES, NOT, YES, NOT],
        [NOT, NOT, NOT, NOT, NOT, YES, NOT],
        [YES, YES, NOT, YES, YES, NOT, NOT],
        [YES, NOT, NOT, YES, NOT, NOT, NOT],
        [YES, YES, YES, NOT, NOT, YES, NOT],
        [NOT, NOT, NOT, NOT, NOT, NOT, NOT],
    ];

    #[test]
    fn all_pairs(rt: HostRuntime) {
        for (asked, row) in MODES.iter().zip(TABLE.iter()) {
            for (held, answer) in MODES.iter().zip(row.iter()) {
                assert_eq!(rt;
                    compatible(*held, *asked),
                    *answer,
                    "{asked:?} beside {held:?}"
                );
            }
        }
    }

    #[test]
    fn range_modes(rt: HostRuntime) {
        for (mode, answer) in MODES.iter().zip([NOT, NOT, NOT, YES, YES, NOT, YES].iter()) {
            assert_eq!(rt; is_range(*mode), *answer, "{mode:?}");
        }
    }
}
