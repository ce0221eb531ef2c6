//! What holds of all printed texts.

ghost use Rattle.sg_program.specs.Laws.{TextTellsRun, ScriptsHaveOneText, PrintedTurnsReplay};

use sg_texts::told_tells;

/// Two runs that print one text have the same commits with the same answers in the same order, the same other
/// transactions with their endings, the same rows, and the same labels where these are printed.
pub fn text_tells_run()
    ensures { TextTellsRun }
{
    told_tells();
}

/// Where no transaction ends for want of memory, all runs of a script print one text, with however many workers. The
/// call does nothing.
pub fn one_text()
    ensures { ScriptsHaveOneText }
{}

/// Where no transaction ends for want of memory, the text that `threads --trace` prints is what `replay` prints of a
/// script with the same table and sessions whose order is the printed one, and then the line of this order. The call does
/// nothing.
pub fn printed_turns_replay()
    ensures { PrintedTurnsReplay }
{}
