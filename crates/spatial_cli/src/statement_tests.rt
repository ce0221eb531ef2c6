// Statements on plain rows.
use sg_plain::{
    Answer, End, PlainRows, Query, Statement, Test, Transaction, eval, execute, keys_with,
};
use sg_relate::Relate;
use sg_shape::{Kind, Pred, Shape, Spot};
use std::test::Fail;

#[test]
fn statements_on_a_held_key(rt: HostRuntime) -> Result<(), Fail> {
    let mut rows = PlainRows::new(rt.alloc());
    rows.push(1, Shape::Point(Spot { x: 0, y: 0 }))?;
    let mut transaction = Transaction::new(rt.alloc(), End::Commit);
    let five = Shape::Point(Spot { x: 5, y: 5 });
    assert!(rt;
        transaction
            .push(Statement::Insert(1, five.copy(rt.alloc())?))
            .is_ok()
    );
    assert!(rt; transaction.push(Statement::Get(1)).is_ok());
    assert!(rt; transaction.push(Statement::Update(1, five)).is_ok());
    assert!(rt; transaction.push(Statement::Get(1)).is_ok());
    assert!(rt; transaction.push(Statement::Delete(1)).is_ok());
    assert!(rt; transaction.push(Statement::Get(1)).is_ok());
    let answers = execute(rt.alloc(), &Relate, &mut rows, &transaction)?;
    assert_eq!(rt; answers.len(), 6);
    assert!(rt; matches!(answers.at(0), Some(Answer::Duplicate)));
    assert!(rt; matches!(answers.at(1), Some(Answer::Found(Shape::Point(spot))) if spot.x == 0));
    assert!(rt; matches!(answers.at(2), Some(Answer::Done)));
    assert!(rt; matches!(answers.at(3), Some(Answer::Found(Shape::Point(spot))) if spot.x == 5));
    assert!(rt; matches!(answers.at(4), Some(Answer::Done)));
    assert!(rt; matches!(answers.at(5), Some(Answer::Absent)));
    assert_eq!(rt; rows.len(), 0);
    Ok(())
}

#[test]
fn statements_on_a_free_key(rt: HostRuntime) -> Result<(), Fail> {
    let mut rows = PlainRows::new(rt.alloc());
    rows.push(2, Shape::Empty(Kind::Point))?;
    let mut transaction = Transaction::new(rt.alloc(), End::Commit);
    let five = Shape::Point(Spot { x: 5, y: 5 });
    assert!(rt; transaction.push(Statement::Get(1)).is_ok());
    assert!(rt;
        transaction
            .push(Statement::Update(1, five.copy(rt.alloc())?))
            .is_ok()
    );
    assert!(rt; transaction.push(Statement::Delete(1)).is_ok());
    assert!(rt; transaction.push(Statement::Insert(1, five)).is_ok());
    let answers = execute(rt.alloc(), &Relate, &mut rows, &transaction)?;
    assert_eq!(rt; answers.len(), 4);
    assert!(rt; matches!(answers.at(0), Some(Answer::Absent)));
    assert!(rt; matches!(answers.at(1), Some(Answer::Missing)));
    assert!(rt; matches!(answers.at(2), Some(Answer::Missing)));
    assert!(rt; matches!(answers.at(3), Some(Answer::Inserted)));
    assert!(rt; matches!(rows.at(0), Some((1, Shape::Point(spot))) if spot.y == 5));
    assert!(rt; matches!(rows.at(1), Some((2, Shape::Empty(Kind::Point)))));
    assert_eq!(rt; rows.len(), 2);
    Ok(())
}

#[test]
fn statements_that_look_for_rows(rt: HostRuntime) -> Result<(), Fail> {
    let alloc = rt.alloc();
    let mut rows = PlainRows::new(alloc);
    rows.push(3, Shape::Point(Spot { x: 0, y: 0 }))?;
    rows.push(8, Shape::Point(Spot { x: 3, y: 4 }))?;
    let select = Statement::Select(Query {
        test: Test::Near {
            bound: 5,
            strict: false,
        },
        shape: Shape::Point(Spot { x: 3, y: 4 }),
    });
    let answer = eval(alloc, &Relate, &mut rows, &select)?;
    assert!(rt; matches!(&answer, Answer::Keys(keys) if keys.len() == 2));
    Ok(())
}

#[test]
fn plan_of_two_rows(rt: HostRuntime) -> Result<(), Fail> {
    let alloc = rt.alloc();
    let mut rows = PlainRows::new(alloc);
    rows.push(3, Shape::Point(Spot { x: 0, y: 0 }))?;
    rows.push(8, Shape::Point(Spot { x: 3, y: 4 }))?;
    let plan = Statement::Plan(Query {
        test: Test::Relate(Pred::Intersects),
        shape: Shape::Point(Spot { x: 3, y: 4 }),
    });
    let answer = eval(alloc, &Relate, &mut rows, &plan)?;
    let Answer::Plan {
        candidates,
        sure,
        refined,
        keys,
    } = &answer
    else {
        return Err(Fail::from("a plan"));
    };
    assert_eq!(rt; *candidates, 2);
    assert_eq!(rt; *sure, 0);
    assert_eq!(rt; *refined, 2);
    assert_eq!(rt; keys.len(), 1);
    assert_eq!(rt; *keys.at(0).ok_or("a key")?, 8);
    Ok(())
}

#[test]
fn keys_of_rows_within_a_point(rt: HostRuntime) -> Result<(), Fail> {
    let alloc = rt.alloc();
    let mut rows = PlainRows::new(alloc);
    rows.push(3, Shape::Point(Spot { x: 0, y: 0 }))?;
    rows.push(8, Shape::Point(Spot { x: 3, y: 4 }))?;
    let within = Test::Relate(Pred::Within);
    let shape = Shape::Point(Spot { x: 0, y: 0 });
    let keys = keys_with(alloc, &Relate, rows.as_slice(), within, &shape)?;
    assert_eq!(rt; keys.len(), 1);
    assert_eq!(rt; *keys.at(0).ok_or("a key")?, 3);
    Ok(())
}
