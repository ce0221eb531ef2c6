use super::*;
use std::test::Fail;

fn session(number: u8) -> Result<Session, Fail> {
    Ok(Session::new(number).ok_or("a session has a number from 1 to 64")?)
}

// Grants the key where nothing stands in the way, and says whether it did.
fn try_grant(locks: &mut Locks<u32>, s: Session, key: u32, mode: Mode) -> Result<bool, AllocError> {
    locks.reserve(1)?;
    if locks.holds(s, &key, mode) {
        return Ok(false);
    }
    let blockers = locks.blockers(s, &key, mode);
    if !blockers.is_empty() {
        return Ok(false);
    }
    locks.grant_reserved(s, key, mode);
    Ok(true)
}

// Two readers of a key go together, an update lock goes beside them, and a writer waits for them;
// what a session holds itself is not in its way.
#[test]
fn three_sessions(rt: HostRuntime) -> Result<(), Fail> {
    let first = session(1)?;
    let second = session(2)?;
    let third = session(64)?;
    let mut locks: Locks<u32> = Locks::new(rt.alloc());
    assert!(rt; try_grant(&mut locks, first, 7, Mode::S)?);
    assert!(rt; try_grant(&mut locks, third, 7, Mode::S)?);
    assert!(rt; !try_grant(&mut locks, second, 7, Mode::X)?);
    let blockers = locks.blockers(second, &7, Mode::X);
    assert_eq!(rt; blockers, Sessions::none().with(first).with(third));
    let blockers = locks.blockers(first, &7, Mode::X);
    assert_eq!(rt; blockers, Sessions::none().with(third));
    assert!(rt; try_grant(&mut locks, second, 7, Mode::U)?);
    assert!(rt; !try_grant(&mut locks, third, 7, Mode::U)?);
    Ok(())
}

// A range lock keeps a new key out of the gap below its key, and touches no other key.
#[test]
fn range_lock(rt: HostRuntime) -> Result<(), Fail> {
    let first = session(1)?;
    let second = session(2)?;
    let mut locks: Locks<u32> = Locks::new(rt.alloc());
    assert!(rt; try_grant(&mut locks, first, 9, Mode::RangeSS)?);
    assert!(rt; try_grant(&mut locks, first, 7, Mode::X)?);
    assert!(rt; locks.holds_range(first, &9));
    assert!(rt; !locks.holds_range(first, &7));
    assert!(rt; !locks.holds_range(second, &9));
    let blockers = locks.blockers(second, &9, Mode::RangeIN);
    assert_eq!(rt; blockers, Sessions::none().with(first));
    let blockers = locks.blockers(second, &8, Mode::RangeIN);
    assert!(rt; blockers.is_empty());
    Ok(())
}

// A session gives back all that it holds, and the others keep what they have.
#[test]
fn release(rt: HostRuntime) -> Result<(), Fail> {
    let first = session(1)?;
    let third = session(64)?;
    let mut locks: Locks<u32> = Locks::new(rt.alloc());
    assert!(rt; try_grant(&mut locks, first, 7, Mode::S)?);
    assert!(rt; try_grant(&mut locks, first, 9, Mode::RangeSU)?);
    assert!(rt; try_grant(&mut locks, third, 7, Mode::S)?);
    locks.release_all(first);
    assert!(rt; !locks.holds(first, &7, Mode::S));
    assert!(rt; !locks.holds(first, &9, Mode::RangeSU));
    assert!(rt; locks.holds(third, &7, Mode::S));
    Ok(())
}

// Pairs of numbers as keys.
#[test]
fn pairs_as_keys(rt: HostRuntime) -> Result<(), Fail> {
    let first = session(3)?;
    let second = session(4)?;
    let mut locks: Locks<(u16, u32)> = Locks::new(rt.alloc());
    locks.reserve(2)?;
    assert!(rt; !locks.holds(first, &(1, 5), Mode::RangeXX));
    let blockers = locks.blockers(first, &(1, 5), Mode::RangeXX);
    assert!(rt; blockers.is_empty());
    locks.grant_reserved(first, (1, 5), Mode::RangeXX);
    let blockers = locks.blockers(second, &(1, 5), Mode::S);
    assert_eq!(rt; blockers, Sessions::none().with(first));
    let blockers = locks.blockers(second, &(5, 1), Mode::S);
    assert!(rt; blockers.is_empty());
    Ok(())
}

// Many keys of one session, and then of none.
#[test]
fn many_grants(rt: HostRuntime) -> Result<(), Fail> {
    let s = session(7)?;
    let mut locks: Locks<u32> = Locks::new(rt.alloc());
    for key in 0..300u32 {
        assert!(rt; try_grant(&mut locks, s, key, Mode::X)?);
    }
    assert!(rt; locks.holds(s, &299, Mode::X));
    locks.release_all(s);
    assert!(rt; !locks.holds(s, &0, Mode::X));
    assert!(rt; !locks.holds(s, &299, Mode::X));
    Ok(())
}
