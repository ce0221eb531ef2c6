ghost use Rattle.std.specs.Prelude.{◌≡◌, ◌||◌};
ghost use Rattle.sg_trace.specs.Keys.{meets};
ghost use Rattle.sg_stores.specs.Held.{holds_where};

use sg_cells::Key;
use sg_locks::Locks;
use sg_modes::{Mode, Session};

/// Whether the session holds the key in a mode that meets this one.
pub fn is_met(locks: &Locks<Key>, s: Session, key: &Key, mode: Mode) -> bool
    ensures { result ≡ holds_where (meets mode) locks.now.grants s key.now }
{
    match mode {
        Mode::S => either(locks.holds(s, key, Mode::S), is_written(locks, s, key)),
        Mode::U => either(locks.holds(s, key, Mode::U), is_written(locks, s, key)),
        Mode::X => is_written(locks, s, key),
        Mode::RangeSS => locks.holds(s, key, Mode::RangeSS),
        Mode::RangeSU => locks.holds(s, key, Mode::RangeSU),
        Mode::RangeIN => false,
        Mode::RangeXX => false,
    }
}

/// Whether the session holds the key in a mode in which it may write there.
fn is_written(locks: &Locks<Key>, s: Session, key: &Key) -> bool
    ensures { result ≡ holds_where (meets Mode.X) locks.now.grants s key.now }
{
    either(
        locks.holds(s, key, Mode::X),
        locks.holds(s, key, Mode::RangeXX),
    )
}

fn either(one: bool, other: bool) -> bool
    ensures { result ≡ (one || other) }
{
    one || other
}
