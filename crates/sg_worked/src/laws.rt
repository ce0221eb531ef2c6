ghost use Rattle.sg_trace.specs.Scripts.{IsLegalFor};
ghost use Rattle.sg_worked.specs.Worked.{phantom_script, phantom_stage, phantom_labels, deadlock_script, deadlock_stage, deadlock_labels, own_gap_script, own_gap_stage, own_gap_labels};

/// An insert waits for a session that has searched where its cell would stand, and stands after it; two updates in
/// opposite order close a cycle of waits, of which the later session is rolled back; and a session that puts a key
/// into a gap that it has searched keeps the whole gap, so that another one waits at its new key. Each of the three
/// lists of labels is legal for its script. The call does nothing.
pub fn worked_traces()
    ensures phantom { IsLegalFor phantom_script phantom_stage phantom_labels }
    ensures deadlock { IsLegalFor deadlock_script deadlock_stage deadlock_labels }
    ensures own_gap { IsLegalFor own_gap_script own_gap_stage own_gap_labels }
{}
