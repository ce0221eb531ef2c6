ghost use Rattle.sg_driver.specs.Laws.{DrivenRunsAreEqual, TracesAreDriven, RecordedRunsReplay};

/// Where no transaction ends for want of memory, a script has one driven run: all have equal traces, and so equal
/// journals and outcomes. The trace is what the turns of the script's order, and then rounds of its sessions, leave.
/// And where the order is that of the turns of a run that came to its end in any other way, the driven run is equal to
/// it. The call does nothing.
pub fn driven_laws()
    ensures equal { DrivenRunsAreEqual }
    ensures traces { TracesAreDriven }
    ensures replay { RecordedRunsReplay }
{}
