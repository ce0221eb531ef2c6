ghost use Rattle.sg_turns.specs.Claims.{RollbacksLeaveNothing, VictimsLeaveNothing, NoCycles, SomeoneIsFree, AloneIsFree, VictimsWait, VictimsStandOnCycles, CostsAreKeys, ConflictsAreSets, RepliesExist, TurnsFit, SomeoneCanTurn, TurnsAreOne, TurnsDetermine, LabelsDetermine, DrivenRunsAreOne, TracesReplayThemselves};
ghost use Rattle.sg_turns.specs.Outcomes.{BegunOnesEndOnce, OutcomesFit, AllHaveOutcomes, EntriesCommitted, CommitsAreEntries};

/// In a legal settled trace the standing waits have no cycle. So where a session is live, some live session doesn't
/// wait, and one that alone is live never does. A victim is live and waits, and it stands on a cycle: each session of
/// its label's cycle waits, by a chain of standing waits, for itself. What counts for the choice is how many keys a
/// session holds to be written. The call does nothing.
pub fn wait_laws()
    ensures no_cycles { NoCycles }
    ensures someone { SomeoneIsFree }
    ensures alone { AloneIsFree }
    ensures victims { VictimsWait }
    ensures on_cycles { VictimsStandOnCycles }
    ensures costs { CostsAreKeys }
    ensures conflicts { ConflictsAreSets }
{}

/// Each sound statement has an answer. A session that doesn't wait, and is live or has a transaction left, has exactly one event to append; and wherever
/// a session is live or has a transaction left, there is one that can. So the turns of a settled trace determine it
/// where memory lasts, as do the script and the labels; two runs that the same turns drive are equal; and a trace
/// that has ended is what its own turns drive. The call does nothing.
pub fn turn_laws()
    ensures answers { RepliesExist }
    ensures fit { TurnsFit }
    ensures someone { SomeoneCanTurn }
    ensures one { TurnsAreOne }
    ensures turns { TurnsDetermine }
    ensures labels { LabelsDetermine }
    ensures driven { DrivenRunsAreOne }
    ensures replay { TracesReplayThemselves }
{}

/// In a legal trace of a script each transaction that began has one outcome, unless it is live: it ends as the script
/// asks, for want of memory, or as a victim; where a session isn't live and has none left, each of its transactions
/// has an outcome. The journal has exactly those that committed, each at its place. The call does nothing.
pub fn outcome_laws()
    ensures once { BegunOnesEndOnce }
    ensures fit { OutcomesFit }
    ensures all { AllHaveOutcomes }
    ensures entries { EntriesCommitted }
    ensures commits { CommitsAreEntries }
{}

/// A transaction that is rolled back, by its session, for want of memory or as a victim, leaves the rows, the
/// present keys and what each session holds as they are without it. The call does nothing.
pub fn rollback_laws()
    ensures rollbacks { RollbacksLeaveNothing }
    ensures victims { VictimsLeaveNothing }
{}
