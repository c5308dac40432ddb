//! Laws of cones, with nothing to run.

ghost use Rattle.lt_cone.specs.Laws.{FacetsAreWallRows, NoRightConeHasAFault};

/// A fault that `check_cone` names excludes a right cone.
pub fn faults_are_wrong()
    ensures { NoRightConeHasAFault }
{}

/// In a right cone a regulator is a facet of the secondary cone exactly where its row has a wall form.
pub fn facets_are_wall_rows()
    ensures { FacetsAreWallRows }
{}
