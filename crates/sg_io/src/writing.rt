ghost use Rattle.std.specs.Prelude.{◌≤◌, ◌<◌, take, length, OnOk, IfErr, OnErr};
ghost use Rattle.std.specs.Io.KnownBytes.{Appends};
ghost use Rattle.sg_io.specs.Causes.{Rose};

use crate::sinks::Sink;
use crate::sources::Failed;
use thiserror::Error;

/// A sink failed before it had taken a whole text.
#[derive(Clone, Copy, Debug, PartialEq, Eq, Error)]
#[error("writing failed after {sent} bytes")]
pub struct WriteEnd {
    /// How many bytes the sink took, fewer than the text has.
    pub sent: usize,
}

/// Hands all of a text to a sink. It takes no memory.
///
/// At an `Err` the sink has taken the first `sent` bytes of the text.
pub fn write_all<K: Sink>(sink: &mut K, text: &[u8]) -> Result<(), WriteEnd>
    ensures all { OnOk result (Appends (K.taken sink.old) (K.taken sink.new) text.now) }

    ensures sent { IfErr result (λ end. Appends (K.taken sink.old) (K.taken sink.new) (take end.sent text.now)) }
    ensures within { IfErr result (λ end. end.sent < length text.now) }
    ensures fault { OnErr result (Rose (K.faults sink.old) (K.faults sink.new)) }

    ensures later { K.faults sink.old ≤ K.faults sink.new }
{
    let mut sent = 0;
    while sent < text.len() {
        match sink.write(&text[sent..]) {
            Ok(count) => sent += count,
            Err(Failed) => return Err(WriteEnd { sent }),
        }
    }
    Ok(())
}
