ghost use Rattle.sg_plane.specs.Claims.{MeetsDecided, MatrixDecided, RelatedDecided, PointsDecided, MeetsBoxDecided, CoversBoxDecided, LeavesBoxDecided};
ghost use Rattle.sg_plane.specs.Reach.{LiesInBounds, IsFilled, ReachesNear};

/// The decisions decide what they say, over all points of the plane. The call does nothing.
pub fn plane_laws()
    ensures meets { MeetsDecided }
    ensures matrix { MatrixDecided }
    ensures related { RelatedDecided }
    ensures points { PointsDecided }
    ensures meets_box { MeetsBoxDecided }
    ensures covers_box { CoversBoxDecided }
    ensures leaves_box { LeavesBoxDecided }
{}

/// Each point of a shape lies in the bounds of its spots, bounds have the points of their shape, and what
/// is near a shape is a point of the grown one. The call does nothing.
pub fn reach_laws()
    ensures bounds { LiesInBounds }
    ensures filled { IsFilled }
    ensures grown { ReachesNear }
{}
