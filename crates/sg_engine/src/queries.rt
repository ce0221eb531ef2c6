ghost use Rattle.std.specs.Prelude.{◌≡◌, ◌∷◌, [], ◌++◌, IfOk, IfSome, OnOk};
ghost use Rattle.std.specs.Option.{option_copied};
ghost use Rattle.sg_shape.specs.Sound.{IsSound};
ghost use Rattle.sg_plain.specs.Keys.{IsRising};
ghost use Rattle.sg_plain.specs.Rows.{shape_at};
ghost use Rattle.sg_plain.specs.Sat.{IsSoundTest};
ghost use Rattle.sg_trace.specs.Pending.{ArePending, IsAboveAll, chosen, has_key, offered};
ghost use Rattle.sg_stores.specs.Agreement.{seen_rows};

use sg_modes::Session;
use sg_plain::{KeyList, Test};
use sg_refine::{JobName, RefineJob};
use sg_rows::Rows;
use sg_scan::Found;
use sg_shape::Shape;
use std::alloc::{AllocError, Global};

/// The candidates that aren't sure, with their shapes as the session sees them, to be tested against the shape.
pub(crate) fn job_of(
    alloc: Global,
    name: JobName,
    test: Test,
    shape: &Shape,
    found: &Found,
    s: Session,
    rows: &Rows,
) -> Result<RefineJob, AllocError>
    requires test { IsSoundTest test }
    requires sound { IsSound shape.now }
    ensures name { IfOk result (λ job. job.name ≡ name) }
    ensures test { IfOk result (λ job. job.test ≡ test) }
    ensures query { IfOk result (λ job. job.query ≡ shape.now) }
    ensures items { IfOk result (λ job. ArePending (seen_rows s rows.now.rows) found.now.candidates found.now.sure job.items) }
    ensures rising { IfOk result (λ _. IsRising found.now.candidates) }
{
    let mut job = RefineJob::new(alloc, name, test, shape.copy(alloc)?);
    let sure = found.sure.as_slice();
    for key in found.candidates.as_slice() {
        offer(alloc, rows, s, sure, *key, &mut job)?;
    }
    Ok(job)
}

/// Puts the row with the key last, where it isn't sure and the session sees one.
fn offer(
    alloc: Global,
    rows: &Rows,
    s: Session,
    sure: &[u32],
    key: u32,
    job: &mut RefineJob,
) -> Result<(), AllocError>
    requires rising { IsRising sure.now }
    requires above { IsAboveAll job.old.items key }
    ensures name { job.new.name ≡ job.old.name }
    ensures test { job.new.test ≡ job.old.test }
    ensures query { job.new.query ≡ job.old.query }
    ensures items { OnOk result (job.new.items ≡ offered (has_key sure.now key) (shape_at (seen_rows s rows.now.rows) key) key job.old.items) }
{
    if holds(sure, key) {
        return Ok(());
    }
    job.in_order();
    let Some(shape) = shape_of(rows, s, key) else {
        return Ok(());
    };
    let copy = shape.copy(alloc)?;
    job.push(key, copy)?;
    Ok(())
}

/// The shape of the row with the key, as the session sees it.
pub(crate) fn shape_of(rows: &Rows, s: Session, key: u32) -> Option<&Shape>
    ensures shape { option_copied result ≡ shape_at (seen_rows s rows.now.rows) key }
    ensures sound { IfSome result (λ shape. IsSound shape.now) }
{
    rows.in_order();
    rows.visible(s, key)
}

/// Of the keys that were found, those that are sure and those that passed the test.
pub(crate) fn chosen(alloc: Global, found: &Found, passed: &KeyList) -> Result<KeyList, AllocError>
    ensures keys { IfOk result (λ keys. keys ≡ chosen found.now.sure passed.now found.now.candidates) }
    ensures rising { IsRising found.now.candidates }
{
    let sure = found.sure.as_slice();
    let tested = passed.as_slice();
    let mut keys = KeyList::new(alloc);
    for key in found.candidates.as_slice() {
        if holds(sure, *key) || holds(tested, *key) {
            push(&mut keys, *key)?;
        }
    }
    Ok(keys)
}

/// Puts a key last.
fn push(keys: &mut KeyList, key: u32) -> Result<(), AllocError>
    requires { IsRising (keys.old ++ key ∷ []) }
    ensures { OnOk result (keys.new ≡ keys.old ++ key ∷ []) }
{
    keys.push(key)?;
    Ok(())
}

/// Whether the key is in the list. It compares a logarithmic number of keys.
fn holds(keys: &[u32], key: u32) -> bool
    requires { IsRising keys.now }
    ensures { result ≡ has_key keys.now key }
{
    match keys.binary_search(&key) {
        Ok(_) => true,
        Err(_) => false,
    }
}
