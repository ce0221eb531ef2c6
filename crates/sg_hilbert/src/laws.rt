ghost use Rattle.sg_hilbert.specs.Curve.{FillsSquare, DoublesToSide, IsUnbroken, BeginsLowerLeft, EndsLowerRight};

/// The laws of the curve, which this contract states for every side: it has as many places as its square
/// has spots, neighbouring places have spots that share a side, and it goes from the lower left to the
/// lower right. The call does nothing.
pub fn curve_laws()
    ensures places { FillsSquare }
    ensures sides { DoublesToSide }
    ensures neighbours { IsUnbroken }
    ensures begins { BeginsLowerLeft }
    ensures ends { EndsLowerRight }
{}
