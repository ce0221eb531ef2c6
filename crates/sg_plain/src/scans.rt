ghost use Rattle.std.specs.Prelude.{◌↔◌, ◌∷◌, [], ◌++◌, IsTrue, IfOk, OnOk};
ghost use Rattle.sg_shape.specs.Sound.{IsSound};
ghost use Rattle.sg_plain.specs.Keys.{IsRising};
ghost use Rattle.sg_plain.specs.Rows.{AreRows, IsKeysWith};
ghost use Rattle.sg_plain.specs.Sat.{IsSoundTest, Sat};
ghost use Rattle.sg_plain.specs.Takes.{Takes};

use crate::keys::KeyList;
use crate::statements::Test;
use sg_shape::{Judge, Shape};
use std::alloc::{AllocError, Global};

/// The keys of the rows that satisfy the test against a shape, rising: each row is tested. The rows have rising
/// keys and sound shapes, a bound of distances is at most 64,000,000, and the shape is sound. The error comes for
/// want of memory alone.
pub fn keys_with<J: Judge>(
    alloc: Global,
    judge: &J,
    rows: &[(u32, Shape)],
    test: Test,
    shape: &Shape,
) -> Result<KeyList, AllocError>
    requires rows { AreRows rows.now }
    requires test { IsSoundTest test }
    requires sound { IsSound shape.now }
    ensures { IfOk result (IsKeysWith (λ row. Sat test row shape.now) rows.now) }
{
    let mut keys = KeyList::new(alloc);
    for row in rows {
        take_row(alloc, judge, &mut keys, row, test, shape)?;
    }
    Ok(keys)
}

/// Puts the row's key last, if the row satisfies the test.
fn take_row<J: Judge>(
    alloc: Global,
    judge: &J,
    keys: &mut KeyList,
    row: &(u32, Shape),
    test: Test,
    shape: &Shape,
) -> Result<(), AllocError>
    requires row { IsSound row.now.1 }
    requires test { IsSoundTest test }
    requires sound { IsSound shape.now }
    requires above { IsRising (keys.old ++ row.now.0 ∷ []) }
    ensures { OnOk result (Takes (λ row. Sat test row shape.now) row.now keys.old keys.new) }
{
    if !is_sat(alloc, judge, test, &row.1, shape)? {
        return Ok(());
    }
    keys.push(row.0)?;
    Ok(())
}

fn is_sat<J: Judge>(
    alloc: Global,
    judge: &J,
    test: Test,
    row: &Shape,
    shape: &Shape,
) -> Result<bool, AllocError>
    requires row { IsSound row.now }
    requires test { IsSoundTest test }
    requires sound { IsSound shape.now }
    ensures { IfOk result (λ yes. IsTrue yes ↔ Sat test row.now shape.now) }
{
    match test {
        Test::Relate(pred) => judge.satisfies(alloc, row, shape, pred),
        Test::Near { bound, strict } => Ok(judge.near(row, shape, bound, strict)),
    }
}
