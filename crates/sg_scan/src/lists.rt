ghost use Rattle.std.specs.Prelude.{◌≡◌, ◌++◌, ◌∷◌, [], IfOk, IfSome, IfNone, OnOk, slice_get};
ghost use Rattle.std.specs.Ordering.{nat_cmp};
ghost use Rattle.sg_pages.specs.Stored.{HasRisingKeys};
ghost use Rattle.sg_plain.specs.Keys.{IsRising};
ghost use Rattle.sg_plain.specs.Rows.{keys_of};
ghost use Rattle.sg_rows.specs.Table.{version_at, rows_past, row_key};
ghost use Rattle.sg_versions.specs.Versions.{visible};
ghost use Rattle.sg_stores.specs.Agreement.{seen_rows};
ghost use Rattle.sg_scan.specs.Hits.{IsListOf, IsNextTableRow, key_where};

use sg_cells::Key;
use sg_modes::Session;
use sg_plain::KeyList;
use sg_rows::Rows;
use std::alloc::{AllocError, Global};

/// The keys, each once and rising.
pub(crate) fn listed(alloc: Global, keys: Vec<u32>) -> Result<KeyList, AllocError>
    ensures { IfOk result (IsListOf keys.items) }
{
    let mut keys = keys;
    sort_distinct(&mut keys);
    list_of(alloc, &keys)
}

/// Sorts the keys, and leaves each once.
fn sort_distinct(keys: &mut Vec<u32>)
    ensures { IsListOf keys.old.items keys.new.items }
{
    keys.sort_unstable();
    keys.dedup();
}

/// The keys as a list.
fn list_of(alloc: Global, keys: &[u32]) -> Result<KeyList, AllocError>
    requires { IsRising keys.now }
    ensures { IfOk result (λ list. list ≡ keys.now) }
{
    let mut list = KeyList::new(alloc);
    for key in keys {
        list.push(*key)?;
    }
    Ok(list)
}

/// The keys of the rows that the session sees.
pub(crate) fn seen_keys(alloc: Global, s: Session, rows: &Rows) -> Result<KeyList, AllocError>
    ensures { IfOk result (λ keys. keys ≡ keys_of (seen_rows s rows.now.rows)) }
{
    let mut keys = KeyList::new(alloc);
    let mut last = None;
    while let Some(key) = next_row(rows, last) {
        push_seen(&mut keys, s, rows, key)?;
        last = Some(key);
    }
    Ok(keys)
}

/// The least key above this one, or of all.
pub(crate) fn next_row(rows: &Rows, last: Option<u32>) -> Option<u32>
    ensures next { IfSome result (IsNextTableRow rows.now.rows last) }
    ensures none { IfNone result (rows_past last rows.now.rows ≡ []) }
    ensures rising { HasRisingKeys nat_cmp rows.now.rows }
{
    match key_past(rows, last) {
        Key::Row(key) => Some(key),
        _ => None,
    }
}

fn key_past(rows: &Rows, last: Option<u32>) -> Key
    ensures first { result ≡ row_key (slice_get (rows_past last rows.now.rows) 0) }
    ensures rising { HasRisingKeys nat_cmp rows.now.rows }
{
    match last {
        None => rows.first_key(),
        Some(key) => rows.next_key(key),
    }
}

/// Puts the key last where the session sees a shape there.
fn push_seen(keys: &mut KeyList, s: Session, rows: &Rows, key: u32) -> Result<(), AllocError>
    requires { IfSome (visible s (version_at rows.now.rows key)) (λ _. IsRising (keys.old ++ key ∷ [])) }
    ensures { OnOk result (keys.new ≡ keys.old ++ key_where key (visible s (version_at rows.now.rows key))) }
{
    if rows.visible(s, key).is_none() {
        return Ok(());
    }
    keys.push(key)?;
    Ok(())
}
