ghost use Rattle.sg_serial.specs.Claims.{JournalIsSerialIn, JournalIsSerial, JournalIsInOrder, JournalsAreAlike};
ghost use Rattle.sg_serial.specs.Told.{TracesTellScripts};

/// The answers of a legal trace's committed transactions, and its committed rows, are those of executing these
/// transactions one after another in the order of their commits, by the replies of the table and on plain rows. A
/// trace of a script commits transactions of it, each once and in each session's order; and each legal trace is one
/// of the script that it tells. Under any two settings, legal traces from the same rows whose journals have the same
/// statements have equal answers there, but for what a plan counts and which rows a filter names, and leave the same
/// committed rows. The call does nothing.
pub fn journal_laws()
    ensures serial_in { JournalIsSerialIn }
    ensures serial { JournalIsSerial }
    ensures in_order { JournalIsInOrder }
    ensures told { TracesTellScripts }
    ensures alike { JournalsAreAlike }
{}
