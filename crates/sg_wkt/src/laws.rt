//! What holds between reading and writing, for all sound shapes.

ghost use Rattle.sg_wkt.specs.Laws.{IsOneLine, IsPrintable, ReadsBack, ReadsExactly, ReadsSound, TellsApart, TellsFaults};

/// What `write_wkt` appends for a sound shape, `read_wkt` reads as that shape.
pub fn reads_back()
    ensures { ReadsBack }
{}

/// Two sound shapes with one canonical text are one shape.
pub fn tells_apart()
    ensures { TellsApart }
{}

/// The canonical text of a sound shape is printable ASCII, on one line.
pub fn is_one_line()
    ensures printable { IsPrintable }
    ensures one_line { IsOneLine }
{}

/// Each shape that a text spells is sound.
pub fn reads_sound()
    ensures { ReadsSound }
{}

/// A text is read exactly where its tokens spell a sound shape, and as that shape.
pub fn reads_exactly()
    ensures { ReadsExactly }
{}

/// Each fault that a text is told stands at a token of which its row of the table holds, or at the text's end.
pub fn tells_faults()
    ensures { TellsFaults }
{}
