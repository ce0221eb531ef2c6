use sg_modes::{Session, Sessions};

/// How a transaction ended that didn't commit.
#[derive(Clone, Copy, Debug, PartialEq, Eq)]
pub enum Ending {
    /// Its script asked for a rollback.
    RolledBack,
    /// It was rolled back as the victim of a cycle of waits, which had these sessions.
    Victim { cycle: Sessions },
    /// There was no memory to go on, or to begin it.
    NoMemory,
}

/// A transaction that didn't commit.
#[derive(Debug, Drop)]
pub struct Other {
    /// Whose it was.
    pub session: Session,
    /// Its number in the session, from 1.
    pub transaction: u64,
    /// How it ended.
    pub ending: Ending,
}
