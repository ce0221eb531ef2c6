ghost use Rattle.sg_laws.specs.Claims.{StatesAreSound, NoPhantom, PresentKeysAreListed, RisingKeysAreOne};

/// After each event of a legal trace the locks guard what was answered; so no committed change of another session
/// alters an answer that a live session was given, whatever key was inserted, moved or removed. The list of the
/// present keys has exactly these. The call does nothing.
pub fn state_laws()
    ensures sound { StatesAreSound }
    ensures no_phantom { NoPhantom }
    ensures present { PresentKeysAreListed }
    ensures one_list { RisingKeysAreOne }
{}
