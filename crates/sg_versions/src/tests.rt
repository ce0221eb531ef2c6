ghost use Rattle.std.specs.Prelude.{◌≤◌};

use super::*;
use sg_modes::Session;
use std::alloc::AllocError;
use std::test::Fail;

fn session(number: u8) -> Result<Session, Fail> {
    Ok(Session::new(number).ok_or("a session has a number from 1 to 64")?)
}

// One session inserts, updates, deletes and commits; another then does so and takes it back.
#[test]
fn keep_and_undo(rt: HostRuntime) -> Result<(), Fail> {
    let first = session(1)?;
    let second = session(2)?;
    let mut versions: Versions<u32, u64> = Versions::new(rt.alloc());
    versions.reserve(4)?;
    versions.put_kept(10, 100);
    versions.put_kept(20, 200);
    versions.put_reserved(first, 30);
    versions.write(first, 30, Some(300));
    versions.write(first, 10, None);
    versions.write(first, 20, Some(201));
    assert_eq!(rt; versions.visible(first, &10).copied(), None);
    assert_eq!(rt; versions.visible(second, &10).copied(), Some(100));
    assert_eq!(rt; versions.visible(first, &20).copied(), Some(201));
    assert_eq!(rt; versions.visible(second, &30).copied(), None);
    versions.keep(first);
    assert!(rt; versions.get(&10).is_none());
    assert_eq!(rt; versions.visible(second, &20).copied(), Some(201));
    assert_eq!(rt; versions.at_or_after(&21).map(|row| *row.0), Some(30));
    assert_eq!(rt; versions.after(&30).map(|row| *row.0), None);

    versions.put_reserved(second, 40);
    versions.remove(second, &40);
    assert!(rt; versions.get(&40).is_none());
    versions.put_reserved(second, 40);
    versions.write(second, 20, None);
    versions.write(second, 20, Some(7));
    versions.undo(second);
    assert!(rt; versions.get(&40).is_none());
    assert_eq!(rt; versions.visible(second, &20).copied(), Some(201));
    Ok(())
}

#[test]
fn what_is_seen(rt: HostRuntime) -> Result<(), Fail> {
    let first = session(1)?;
    let version: Version<u8> = Version {
        committed: Some(1),
        writer: Some(first),
        live: None,
    };
    assert_eq!(rt; version.seen(first).copied(), None);
    assert_eq!(rt; version.seen(session(2)?).copied(), Some(1));
    Ok(())
}

// Many keys of one session, kept, and as many of another, taken back.
#[test]
fn many_keys(rt: HostRuntime) -> Result<(), Fail> {
    let (first, second) = (session(1)?, session(2)?);
    let mut versions: Versions<u32, u64> = Versions::new(rt.alloc());
    put_all(&mut versions, first, 0)?;
    versions.keep(first);
    put_all(&mut versions, second, 300)?;
    versions.undo(second);
    assert_eq!(rt; versions.visible(second, &299).copied(), Some(1));
    assert!(rt; versions.get(&300).is_none());
    assert_eq!(rt; versions.at_or_after(&299).map(|row| *row.0), Some(299));
    Ok(())
}

// Writes 300 keys from this one on, each with 1.
fn put_all(versions: &mut Versions<u32, u64>, s: Session, from: u32) -> Result<(), AllocError>
    requires { from ≤ 300 }
{
    for k in 0..300u32 {
        versions.reserve(1)?;
        if versions.get(&(from + k)).is_none() {
            versions.put_reserved(s, from + k);
            versions.write(s, from + k, Some(1));
        }
    }
    Ok(())
}
