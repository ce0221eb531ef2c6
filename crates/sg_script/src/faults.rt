use sg_cells::GridFault;
use sg_wkt::WktFault;

/// What is wrong with a line of a script.
#[derive(Clone, Copy, Debug, PartialEq, Eq)]
pub enum ScriptKind {
    /// A word is missing, is unknown, may not stand there, or is one too many.
    Word,
    /// A number is missing, isn't spelled as one, or is out of its range.
    Number,
    /// The shape has this fault, whose place is counted from the shape's first byte.
    Shape(WktFault),
    /// The session's number isn't from 1 to 64, isn't above the last session's, or, in a turn, is no session's
    /// of the script.
    Session,
    /// A transaction is still open where a session begins, turns are told, or the text ends.
    NotClosed,
    /// The line of the grid is spelled as one, but there is no such grid, for this reason.
    Grid(GridFault),
}

/// The first fault of a text: the number of its line, from 1 with skipped lines counted too, and what is
/// wrong there.
#[derive(Clone, Copy, Debug, PartialEq, Eq)]
pub struct ScriptFault {
    pub line: u32,
    pub kind: ScriptKind,
}

/// Why a text wasn't read.
#[derive(Clone, Copy, Debug, PartialEq, Eq)]
pub enum ReadScript {
    /// The text is no script.
    Fault(ScriptFault),
    /// There was no memory for the script.
    OutOfMemory,
}

/// Why a line, or a field of it, wasn't read.
#[derive(Clone, Copy, Debug, PartialEq, Eq)]
pub enum ReadLine {
    Fault(ScriptKind),
    OutOfMemory,
}
