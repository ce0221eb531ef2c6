ghost use Rattle.std.specs.Prelude.{◌≡◌, ◌++◌, IfOk, OnOk};
ghost use Rattle.std.specs.Fmt.{decimal};
ghost use Rattle.sg_program.specs.Faults.{fault_line, grid_text, kind_text, token_text};

use itoa::Buffer;
use sg_cells::GridFault;
use sg_script::{ScriptFault, ScriptKind};
use sg_wkt::{WktFault, WktKind};
use std::alloc::{AllocError, Global};

/// What is said of a script's first faulty line: its number, from 1, and what is wrong there. `AllocError` is want of
/// memory.
pub fn fault_line(alloc: Global, fault: &ScriptFault) -> Result<Vec<u8>, AllocError>
    ensures { IfOk result (λ line. line.items ≡ fault_line fault.now) }
{
    let mut out = Vec::new(alloc);
    out.extend_from_slice(b"script line ")?;
    append_number(u64::from(fault.line), &mut out)?;
    out.extend_from_slice(b": ")?;
    append_kind(&fault.kind, &mut out)?;
    out.extend_from_slice(b"\n")?;
    Ok(out)
}

fn append_kind(kind: &ScriptKind, out: &mut Vec<u8>) -> Result<(), AllocError>
    ensures { OnOk result (out.new.items ≡ out.old.items ++ kind_text kind.now) }
{
    match kind {
        ScriptKind::Word => out.extend_from_slice(b"word"),
        ScriptKind::Number => out.extend_from_slice(b"number"),
        ScriptKind::Shape(fault) => append_shape_fault(fault, out),
        ScriptKind::Session => out.extend_from_slice(b"session"),
        ScriptKind::NotClosed => out.extend_from_slice(b"not closed"),
        ScriptKind::Grid(fault) => out.extend_from_slice(grid_text(*fault)),
    }
}

/// Appends what is wrong with a shape, and at which of its bytes, counted from 0.
fn append_shape_fault(fault: &WktFault, out: &mut Vec<u8>) -> Result<(), AllocError>
    ensures { OnOk result (out.new.items ≡ out.old.items ++ kind_text (ScriptKind.Shape fault.now)) }
{
    out.extend_from_slice(b"shape ")?;
    out.extend_from_slice(token_text(fault.kind))?;
    out.extend_from_slice(b" at byte ")?;
    append_number(fault.at as u64, out)
}

fn token_text(kind: WktKind) -> &'static [u8]
    ensures { result.now ≡ token_text kind }
{
    match kind {
        WktKind::Keyword => b"keyword",
        WktKind::Number => b"number",
        WktKind::Fraction => b"fraction",
        WktKind::Punctuation => b"punctuation",
        WktKind::CoordOut => b"coordinate out",
        WktKind::TooMany => b"too many",
        WktKind::TooFew => b"too few",
        WktKind::RingOpen => b"ring open",
        WktKind::End => b"end",
        WktKind::After => b"after",
    }
}

fn grid_text(fault: GridFault) -> &'static [u8]
    ensures { result.now ≡ grid_text fault }
{
    match fault {
        GridFault::BoxEmpty => b"grid box empty",
        GridFault::CoordOut => b"grid coordinate out",
        GridFault::CellsOut => b"grid cells out",
    }
}

fn append_number(number: u64, out: &mut Vec<u8>) -> Result<(), AllocError>
    ensures { OnOk result (out.new.items ≡ out.old.items ++ decimal number) }
{
    let mut buffer = Buffer::new();
    out.extend_from_slice(buffer.format(number).as_bytes())
}
