ghost use Rattle.sg_distance.specs.Grown.{HasItsBox, HasAllNear};

/// What `Shape::grown` makes, by points: exactly those of the closed box, and with them each point within the
/// limits of coordinates that lies within the distance of the shape. The call does nothing.
pub fn grown_laws()
    ensures points { HasItsBox }
    ensures near { HasAllNear }
{}
