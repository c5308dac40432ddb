ghost use Rattle.lt_lp.specs.Alternatives.{EveryPlaceHasOneAlternative};

/// A law, with nothing to run: where some form is positive at all normals of a list, of any weight, exactly one of two
/// holds for each of them. There is a wall form, at which this normal is 0 and each other one is positive; or a positive
/// multiple of it is a sum of others with positive coefficients. Gordan 1873.
pub fn alternatives()
    ensures { EveryPlaceHasOneAlternative }
{}
