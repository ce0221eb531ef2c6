use super::*;
use sg_shape::{Kind, Pred, Shape, Spot};
use std::test::Fail;

#[test]
fn rows(rt: HostRuntime) -> Result<(), Fail> {
    let mut rows = PlainRows::new(rt.alloc());
    rows.push(3, Shape::Point(Spot { x: 1, y: 2 }))?;
    rows.push(9, Shape::Empty(Kind::Polygon))?;
    assert_eq!(rt; rows.len(), 2);
    let copy = rows.copy(rt.alloc())?;
    assert_eq!(rt; copy.as_slice().len(), 2);
    assert!(rt; matches!(copy.at(0), Some((3, Shape::Point(spot))) if spot.y == 2));
    assert!(rt; matches!(copy.at(1), Some((9, Shape::Empty(Kind::Polygon)))));
    assert!(rt; copy.at(2).is_none());
    assert!(rt; copy.shape_at(9).is_some());
    assert!(rt; copy.shape_at(4).is_none());
    Ok(())
}

#[test]
fn keys(rt: HostRuntime) -> Result<(), Fail> {
    let mut keys = KeyList::new(rt.alloc());
    assert!(rt; keys.push(0).is_ok());
    assert!(rt; keys.push(4_294_967_295).is_ok());
    let copy = keys.copy(rt.alloc())?;
    assert_eq!(rt; copy.len(), 2);
    assert_eq!(rt; *copy.at(1).ok_or("the second")?, 4_294_967_295);
    assert!(rt; copy.at(2).is_none());
    Ok(())
}

#[test]
fn transactions(rt: HostRuntime) -> Result<(), Fail> {
    let mut transaction = Transaction::new(rt.alloc(), End::Rollback);
    let insert = Statement::Insert(7, Shape::Empty(Kind::Line));
    assert!(rt; transaction.push(insert.copy(rt.alloc())?).is_ok());
    let query = Query {
        test: Test::Relate(Pred::Intersects),
        shape: Shape::Point(Spot { x: 0, y: 0 }),
    };
    assert!(rt; transaction.push(Statement::Select(query)).is_ok());
    let query = Query {
        test: Test::Near {
            bound: 64_000_000,
            strict: true,
        },
        shape: Shape::Point(Spot { x: 0, y: 0 }),
    };
    assert!(rt; transaction.push(Statement::DeleteWhere(query)).is_ok());
    assert_eq!(rt; transaction.len(), 3);
    assert_eq!(rt; transaction.end(), End::Rollback);
    assert!(rt; matches!(transaction.at(0), Some(Statement::Insert(7, _))));
    assert!(rt; matches!(transaction.at(1), Some(Statement::Select(_))));
    assert!(rt; matches!(transaction.at(2), Some(Statement::DeleteWhere(_))));
    assert!(rt; transaction.at(3).is_none());
    Ok(())
}

#[test]
fn plans(rt: HostRuntime) -> Result<(), Fail> {
    let mut found = KeyList::new(rt.alloc());
    assert!(rt; found.push(5).is_ok());
    let told = Answer::Plan {
        candidates: 9,
        sure: 2,
        refined: 7,
        keys: found,
    };
    let copy = told.copy(rt.alloc())?;
    let Answer::Plan {
        candidates,
        sure,
        refined,
        keys,
    } = &copy
    else {
        return Err(Fail::from("a plan"));
    };
    assert_eq!(rt; *candidates, 9);
    assert_eq!(rt; *sure, 2);
    assert_eq!(rt; *refined, 7);
    assert_eq!(rt; keys.len(), 1);
    Ok(())
}
