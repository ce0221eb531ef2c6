//! What holds of the faults of scripts.

ghost use Rattle.sg_script.specs.Faults.{TellsFaults};

/// The line of a text's fault is the first that can't stand there: the lines before it make a script, as they are or
/// with the open transaction closed; no script begins with them and it, and what stands behind it changes nothing.
/// Where the text ends with a transaction open, a commit would close it.
pub fn tells_faults()
    ensures { TellsFaults }
{}
