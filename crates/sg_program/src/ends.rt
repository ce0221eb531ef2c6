ghost use Rattle.std.specs.Prelude.{◌≡◌, ◌≢◌, ℕ, ◌⊎◌, ◌<◌, true, length, take, IfOk, IfErr, IfSome};
ghost use Rattle.std.specs.Io.KnownBytes.{Appends};
ghost use Rattle.sg_io.specs.Causes.{Rose};
ghost use Rattle.sg_program.specs.Faults.{fault_line as line_of_fault};
ghost use Rattle.sg_program.specs.Runs.{GaveScript, IsRefused, IsTooLong, Said};
ghost use Rattle.sg_program.specs.declared.status.Exit.{Exit};
ghost use Rattle.sg_program.specs.Statuses.{is_of_reading, refusal_in};

use crate::faults::fault_line;
use crate::status::Exit;
use sg_io::{ReadEnd, Sink, Source, read_all, write_all};
use sg_script::{ReadScript, Script, ScriptFault, read_script};
use std::alloc::{AllocError, Global};

/// Reads the source to its end, as a script. Where there is none, the program's end says why: what was read is no
/// script, or too long for one; the source failed; or there was no memory.
pub(crate) fn script_of<S: Source>(alloc: Global, source: &mut S) -> Result<Script, Exit>
    ensures given { IfOk result (GaveScript (S.left source.old) (S.left source.new)) }
    ensures only { IfErr result (λ end. is_of_reading end ≡ true) }
    ensures refused { IfErr result (λ end. IfSome (refusal_in end) (IsRefused (S.left source.old) (S.left source.new))) }
    ensures too_long { IfErr result (λ end. end ≡ Exit.TooLong → IsTooLong (S.left source.old) (S.left source.new)) }
    ensures read { IfErr result (λ end. end ≡ Exit.ReadFault → Rose (S.faults source.old) (S.faults source.new)) }
{
    let bytes = match read_all(alloc, source) {
        Ok(bytes) => bytes,
        Err(ReadEnd::Fault) => return Err(Exit::ReadFault),
        Err(ReadEnd::TooLong) => return Err(Exit::TooLong),
        Err(ReadEnd::OutOfMemory) => return Err(Exit::OutOfMemory),
    };
    match read_script(alloc, bytes.as_slice()) {
        Ok(script) => Ok(script),
        Err(ReadScript::Fault(fault)) => Err(refusal(alloc, &fault)),
        Err(ReadScript::OutOfMemory) => Err(Exit::OutOfMemory),
    }
}

/// What is said of the fault, if there is memory for it.
fn refusal(alloc: Global, fault: &ScriptFault) -> Exit
    ensures line { IfSome (refusal_in result) (λ line. line ≡ line_of_fault fault.now) }
    ensures only { is_of_reading result ≡ true }
    ensures not_too_long { result ≢ Exit.TooLong }
    ensures not_read { result ≢ Exit.ReadFault }
{
    match fault_line(alloc, fault) {
        Ok(line) => Exit::Refused(line),
        Err(AllocError) => Exit::OutOfMemory,
    }
}

/// Prints the text: `Done`, or `WriteFault` where the sink failed and took its front.
pub(crate) fn print<K: Sink>(out: &mut K, text: &[u8]) -> Exit
    ensures only { (result ≡ Exit.Done) ⊎ (result ≡ Exit.WriteFault) }
    ensures done { result ≡ Exit.Done → Appends (K.taken out.old) (K.taken out.new) text.now }
    ensures write { result ≡ Exit.WriteFault → Rose (K.faults out.old) (K.faults out.new) }
    ensures cut { result ≡ Exit.WriteFault → ((sent : ℕ) × (sent < length text.now) × Appends (K.taken out.old) (K.taken out.new) (take sent text.now)) }
{
    match write_all(out, text) {
        Ok(()) => Exit::Done,
        Err(_) => Exit::WriteFault,
    }
}

/// Tells the message on the program's second output. A failure there changes nothing.
pub(crate) fn say<E: Sink>(err: &mut E, message: &[u8])
    ensures { Said (E.faults err.old) (E.faults err.new) (E.taken err.old) (E.taken err.new) message.now }
{
    match write_all(err, message) {
        Ok(()) => {}
        Err(_) => {}
    }
}
