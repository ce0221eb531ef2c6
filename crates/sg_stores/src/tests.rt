use super::is_met;
use sg_cells::Key;
use sg_locks::Locks;
use sg_modes::{Mode, Session};
use std::test::Fail;

// A row that may be written may be read too, and no lock of a gap tells of its key alone.
#[test]
fn stronger_modes_meet_weaker_ones(rt: HostRuntime) -> Result<(), Fail> {
    let one = Session::new(1).ok_or("a session has a number from 1 to 64")?;
    let two = Session::new(2).ok_or("a session has a number from 1 to 64")?;
    let mut locks: Locks<Key> = Locks::new(rt.alloc());
    locks.reserve(1)?;
    let row = Key::Row(7);
    locks.grant_reserved(one, row, Mode::RangeXX);
    assert!(rt; is_met(&locks, one, &row, Mode::S));
    assert!(rt; is_met(&locks, one, &row, Mode::X));
    assert!(rt; !is_met(&locks, one, &row, Mode::RangeSS));
    assert!(rt; !is_met(&locks, two, &row, Mode::S));
    assert!(rt; !is_met(&locks, one, &Key::RowEnd, Mode::S));
    Ok(())
}
