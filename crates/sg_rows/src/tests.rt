ghost use Rattle.std.specs.Prelude.{IfSome};
ghost use Rattle.sg_shape.specs.Sound.{IsSound};

use super::*;
use sg_shape::Spot;
use std::test::Fail;

fn session(number: u8) -> Result<Session, Fail> {
    Ok(Session::new(number).ok_or("a session has a number from 1 to 64")?)
}

// The x of a point.
fn x_of(shape: Option<&Shape>) -> Option<i32> {
    match shape {
        Some(Shape::Point(spot)) => Some(spot.x),
        _ => None,
    }
}

// A point at 1 with the key 10, and one at 2 with the key 20.
fn two_rows(alloc: Global) -> Result<Rows, Fail> {
    let mut plain = PlainRows::new(alloc);
    plain.push(10, Shape::Point(Spot { x: 1, y: 0 }))?;
    plain.push(20, Shape::Point(Spot { x: 2, y: 0 }))?;
    let mut rows = Rows::new(alloc);
    rows.load(alloc, plain)?;
    Ok(rows)
}

// Puts the key in where it isn't there.
fn put(rows: &mut Rows, s: Session, key: u32) -> Result<(), Fail> {
    rows.reserve(1)?;
    if !rows.present(key) {
        rows.put_reserved(s, key);
    }
    Ok(())
}

// Writes where the key is there and no other session is the writer.
fn write(rows: &mut Rows, s: Session, key: u32, shape: Option<Shape>)
    requires { IfSome shape IsSound }
{
    let is_free = match rows.writer(key) {
        None => true,
        Some(other) => other == s,
    };
    if rows.present(key) && is_free {
        rows.write(s, key, shape);
    }
}

#[test]
fn keys_of_loaded_rows(rt: HostRuntime) -> Result<(), Fail> {
    let rows = two_rows(rt.alloc())?;
    assert!(rt; rows.present(20));
    assert!(rt; !rows.present(15));
    assert_eq!(rt; rows.first_key(), Key::Row(10));
    assert_eq!(rt; rows.next_key(10), Key::Row(20));
    assert_eq!(rt; rows.next_key(20), Key::RowEnd);
    Ok(())
}

#[test]
fn no_rows(rt: HostRuntime) -> Result<(), Fail> {
    let rows = Rows::new(rt.alloc());
    assert_eq!(rt; rows.first_key(), Key::RowEnd);
    assert!(rt; rows.writer(1).is_none());
    Ok(())
}

// A session sees what it wrote, and another sees what is committed.
#[test]
fn what_is_seen(rt: HostRuntime) -> Result<(), Fail> {
    let (first, second) = (session(1)?, session(2)?);
    let mut rows = two_rows(rt.alloc())?;
    write(&mut rows, first, 10, None);
    write(
        &mut rows,
        first,
        20,
        Some(Shape::Point(Spot { x: 4, y: 0 })),
    );
    assert_eq!(rt; x_of(rows.visible(first, 10)), None);
    assert_eq!(rt; x_of(rows.visible(second, 10)), Some(1));
    assert_eq!(rt; x_of(rows.visible(first, 20)), Some(4));
    assert_eq!(rt; x_of(rows.visible(second, 20)), Some(2));
    Ok(())
}

#[test]
fn keeps(rt: HostRuntime) -> Result<(), Fail> {
    let (first, second) = (session(1)?, session(2)?);
    let mut rows = two_rows(rt.alloc())?;
    put(&mut rows, first, 15)?;
    write(
        &mut rows,
        first,
        15,
        Some(Shape::Point(Spot { x: 3, y: 0 })),
    );
    write(&mut rows, first, 10, None);
    rows.keep(first);
    assert!(rt; !rows.present(10));
    assert_eq!(rt; x_of(rows.visible(second, 15)), Some(3));
    Ok(())
}

#[test]
fn undoes(rt: HostRuntime) -> Result<(), Fail> {
    let first = session(64)?;
    let mut rows = two_rows(rt.alloc())?;
    put(&mut rows, first, 15)?;
    write(
        &mut rows,
        first,
        15,
        Some(Shape::Point(Spot { x: 3, y: 0 })),
    );
    write(&mut rows, first, 10, None);
    rows.undo(first);
    assert!(rt; !rows.present(15));
    assert_eq!(rt; x_of(rows.visible(first, 10)), Some(1));
    Ok(())
}

// What a session has written and not committed isn't copied.
#[test]
fn copies_what_is_committed(rt: HostRuntime) -> Result<(), Fail> {
    let first = session(1)?;
    let mut rows = two_rows(rt.alloc())?;
    put(&mut rows, first, 15)?;
    write(
        &mut rows,
        first,
        20,
        Some(Shape::Point(Spot { x: 4, y: 0 })),
    );
    let committed = rows.committed(rt.alloc())?;
    assert_eq!(rt; committed.len(), 2);
    assert_eq!(rt; x_of(committed.shape_at(20)), Some(2));
    Ok(())
}

// Many rows, with falling keys.
#[test]
fn many_rows(rt: HostRuntime) -> Result<(), Fail> {
    let s = session(1)?;
    let mut rows = Rows::new(rt.alloc());
    for k in 0..300u32 {
        put(&mut rows, s, 299 - k)?;
    }
    assert_eq!(rt; rows.first_key(), Key::Row(0));
    assert_eq!(rt; rows.next_key(150), Key::Row(151));
    assert_eq!(rt; rows.next_key(299), Key::RowEnd);
    Ok(())
}
