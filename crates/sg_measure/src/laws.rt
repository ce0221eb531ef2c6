ghost use Rattle.sg_measure.specs.Claims.{PairsAreEnough, EachEventLowers, UnbegunOnesLower, PartsAreBounded, LowerIsLess, MeasureFalls};

/// Each event of a legal trace of a script lowers a measure of five parts, and so does a transaction that is left
/// unbegun; the trace then follows what is left of the script. As one number the measure falls. The call does
/// nothing.
pub fn measure_laws()
    ensures enough { PairsAreEnough }
    ensures falls { EachEventLowers }
    ensures unbegun { UnbegunOnesLower }
    ensures bounded { PartsAreBounded }
    ensures number { LowerIsLess }
    ensures measure { MeasureFalls }
{}
