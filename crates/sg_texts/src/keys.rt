ghost use Rattle.std.specs.Prelude.{◌≡◌, ◌++◌, OnOk, All, ◌<◌, drop};
ghost use Rattle.std.specs.List.{flat_map};
ghost use Rattle.sg_texts.specs.Fitting.{IsCell, IsKey};
ghost use Rattle.sg_texts.specs.Labels.{cell_text, dotted, key_text, lock_text, mode_text};

use crate::texts::append_number;
use sg_cells::{Cell, Key};
use sg_modes::Mode;
use std::alloc::AllocError;

/// Appends a key and the mode in which it is asked for.
pub(crate) fn append_lock(key: Key, mode: Mode, out: &mut Vec<u8>) -> Result<(), AllocError>
    ensures text { OnOk result (out.new.items ≡ out.old.items ++ lock_text key mode) }
    ensures fits { OnOk result (IsKey key) }
{
    append_key(key, out)?;
    out.extend_from_slice(b" ")?;
    out.extend_from_slice(mode_text(mode))
}

fn append_key(key: Key, out: &mut Vec<u8>) -> Result<(), AllocError>
    ensures text { OnOk result (out.new.items ≡ out.old.items ++ key_text key) }
    ensures fits { OnOk result (IsKey key) }
{
    match key {
        Key::Row(row) => append_row_key(row, out),
        Key::RowEnd => out.extend_from_slice(b"row end"),
        Key::Cell(cell, row) => {
            out.extend_from_slice(b"cell ")?;
            append_cell(cell, out)?;
            out.extend_from_slice(b" ")?;
            append_row_key(row, out)
        }
        Key::CellEnd => out.extend_from_slice(b"cell end"),
    }
}

fn append_row_key(row: u32, out: &mut Vec<u8>) -> Result<(), AllocError>
    ensures { OnOk result (out.new.items ≡ out.old.items ++ key_text (Key.Row row)) }
{
    out.extend_from_slice(b"row ")?;
    append_number(row as u64, out)
}

/// Appends the places of a cell, from level 1 down, with dots between them.
fn append_cell(cell: Cell, out: &mut Vec<u8>) -> Result<(), AllocError>
    ensures text { OnOk result (out.new.items ≡ out.old.items ++ cell_text cell) }
    ensures fits { OnOk result (IsCell cell) }
{
    if cell.level() == 0 {
        return out.extend_from_slice(b"out");
    }
    append_number(cell.place(1) as u64, out)?;
    append_lower_places(cell, out)
}

/// Appends the places of a cell below its first, each after a dot.
fn append_lower_places(cell: Cell, out: &mut Vec<u8>) -> Result<(), AllocError>
    ensures text { OnOk result (out.new.items ≡ out.old.items ++ flat_map dotted (drop 1 cell)) }
    ensures fits { OnOk result (All (λ place. place < 256) (drop 1 cell)) }
{
    for level in 1..cell.level() {
        append_dotted(cell.place(level + 1), out)?;
    }
    Ok(())
}

fn append_dotted(place: u8, out: &mut Vec<u8>) -> Result<(), AllocError>
    ensures { OnOk result (out.new.items ≡ out.old.items ++ dotted place) }
{
    out.extend_from_slice(b".")?;
    append_number(place as u64, out)
}

fn mode_text(mode: Mode) -> &'static [u8]
    ensures { result.now ≡ mode_text mode }
{
    match mode {
        Mode::S => b"S",
        Mode::U => b"U",
        Mode::X => b"X",
        Mode::RangeSS => b"RangeS-S",
        Mode::RangeSU => b"RangeS-U",
        Mode::RangeIN => b"RangeI-N",
        Mode::RangeXX => b"RangeX-X",
    }
}
