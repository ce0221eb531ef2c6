ghost use Rattle.std.specs.Prelude.{◌≡◌, is_none};
ghost use Rattle.std.specs.Option.{option_copied};
ghost use Rattle.sg_versions.specs.Versions.{seen, written, outcome, ended};

use sg_modes::Session;

/// How a session's writes end.
#[derive(Clone, Copy, PartialEq, Eq, Debug)]
pub enum WritesEnd {
    /// What it wrote is committed.
    Keep,
    /// What it wrote is dropped.
    Undo,
}

/// What a key has.
#[derive(Drop)]
pub struct Version<V> {
    /// What the last commit left; none where it left nothing.
    pub committed: Option<V>,
    /// The session that has written since, and whose writes haven't ended.
    pub writer: Option<Session>,
    /// What that session left; none where it left nothing, or where there is none.
    pub live: Option<V>,
}

impl<V: Drop> Version<V> {
    /// What the session sees: what it wrote itself, or else what is committed.
    pub fn seen(&self, s: Session) -> Option<&V>
        ensures { option_copied result ≡ seen s self.now }
    {
        if self.writer == Some(s) {
            self.live.as_ref()
        } else {
            self.committed.as_ref()
        }
    }

    // Writes for the session, and says whether there was no writer before.
    pub(crate) fn write(&mut self, s: Session, value: Option<V>) -> bool
        ensures version { self.new ≡ written s value self.old }
        ensures first { result ≡ is_none self.old.writer }
    {
        let is_first = self.writer.is_none();
        self.writer = Some(s);
        self.live = value;
        is_first
    }

    // Ends the writes, and says whether nothing is left.
    pub(crate) fn settle(&mut self, end: WritesEnd) -> bool
        ensures version { self.new ≡ ended end self.old }
        ensures nothing { result ≡ is_none (outcome end self.old) }
    {
        let live = self.live.take();
        self.writer = None;
        if end == WritesEnd::Keep {
            self.committed = live;
        }
        self.committed.is_none()
    }
}
