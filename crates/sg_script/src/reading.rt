ghost use Rattle.std.specs.Prelude.{◌≤◌, length};
ghost use Rattle.sg_script.specs.Grammar.{script_in};
ghost use Rattle.sg_script.specs.Reads.{Reads};

use crate::faults::{ReadLine, ReadScript, ScriptFault};
use crate::lines::first_line;
use crate::readers::Reader;
use crate::scripts::Script;
use std::alloc::Global;

/// The script that a text of at most 67,108,864 bytes spells, or the text's first fault.
#[tactic(auto, unfolding(crate::specs::Grammar::script_in))]
pub fn read_script(alloc: Global, text: &[u8]) -> Result<Script, ReadScript>
    requires { length text.now ≤ 67108864 }
    ensures { Reads result (script_in text.now) }
{
    let mut reader = Reader::new(alloc);
    let mut rest = text;
    let mut number = 1u32;
    'lines: while let Some((line, after)) = first_line(rest) {
        match reader.take(alloc, line) {
            Ok(()) => {}
            Err(ReadLine::Fault(kind)) => {
                return Err(ReadScript::Fault(ScriptFault { line: number, kind }));
            }
            Err(ReadLine::OutOfMemory) => return Err(ReadScript::OutOfMemory),
        }
        rest = after;
        number += 1;
    }
    reader.finish(number - 1)
}
