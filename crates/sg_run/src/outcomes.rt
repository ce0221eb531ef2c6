use sg_modes::Sessions;

/// How a transaction ended.
#[derive(Clone, Copy, Debug)]
pub enum Outcome {
    /// It committed.
    Committed {
        /// Its place among all commits, from 1.
        place: u64,
    },
    /// It was rolled back, as it asked for.
    RolledBack,
    /// It was rolled back to break a cycle of waits.
    Victim {
        /// The sessions of the cycle.
        cycle: Sessions,
    },
    /// There was no memory to begin it or to go on with it; it was rolled back, or never began.
    NoMemory,
}

/// A transaction of a script that is over.
#[derive(Debug, Drop)]
pub(crate) struct Over {
    /// How it ended.
    pub(crate) outcome: Outcome,
    /// Whether it was begun; without memory to begin it, it wasn't.
    pub(crate) begun: bool,
}
