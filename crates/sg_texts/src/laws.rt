//! What holds of the texts of all reports.

ghost use Rattle.sg_texts.specs.Told.{ToldTells};

use sg_wkt::{is_one_line, tells_apart};

/// Two reports with one text tell the same: the same commits with the same answers in the same order, the same other
/// transactions with their endings, the same rows, and the same labels and turns where they are asked for. Their shapes
/// are sound.
pub fn told_tells()
    ensures { ToldTells }
{
    tells_apart();
    is_one_line();
}
