ghost use Rattle.lt_cover.specs.Laws.{CoversAreCoveringRadii};

/// A law, with nothing to run: the greatest squared circumradius is the squared covering radius. Each rational point is as near to an
/// integer point, and one rational point is not nearer to any.
pub fn covers_are_covering_radii()
    ensures { CoversAreCoveringRadii }
{}
