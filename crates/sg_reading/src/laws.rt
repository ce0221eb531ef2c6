ghost use Rattle.sg_laws.specs.Reading.{ReadingGuards, GuardsStay, GuardedRepliesStay, HeldKeysStay, FencesStay, StretchesStay};
ghost use Rattle.sg_reading.specs.Passed.{RangesAreAreas, RowsAreAnArea, ReadsStay, RangesStay, PartsStay, RowsStay};

/// Once a session has met its statement's needs of reading, what the reply rests on is guarded, and stays so while
/// the session is live: so the reply is the same whatever another session does. At a key that is fenced, as those
/// behind a search are, no key comes or goes by another session. The call does nothing.
pub fn reading_laws()
    ensures guards { ReadingGuards }
    ensures stay { GuardsStay }
    ensures replies { GuardedRepliesStay }
    ensures held { HeldKeysStay }
    ensures fences { FencesStay }
    ensures stretches { StretchesStay }
{}

/// What a search has passed stays passed, whatever another session does: the keys there are the same, and so are the
/// needs, of a whole range, of a range up to a key, and of the rows up to a key. The call does nothing.
pub fn passing_laws()
    ensures ranges { RangesAreAreas }
    ensures rows { RowsAreAnArea }
    ensures reads { ReadsStay }
    ensures whole { RangesStay }
    ensures parts { PartsStay }
    ensures table { RowsStay }
{}
