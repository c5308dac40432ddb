//! Laws on forms and triangulations, each the contract of a function with an empty body. No program calls them.
#![tactic(auto)]

ghost use Rattle.lt_geometry.specs.Few.{ClassesAreChoices, RegulatorsAreAtFacets, FewClasses, FewRegulators};
ghost use Rattle.lt_geometry.specs.Laws.{EveryPavingIsDelaunay, FormsHaveOneTriangulation};
ghost use Rattle.lt_geometry.specs.FirstLaws.{NormalsAreLinear, ValuesAreLinear, ParallelogramLaw, ExcessesMoveAlong, ExpressionsAreProportional};
ghost use Rattle.lt_geometry.specs.Regulators.{PointsInsideAreVertices, MembersLieOpposite, NeighboursAreUnique, NeighboursAreMutual, OuterVerticesLieAbove, FacetsHaveOneRegulator, RegulatorsAreMutual, RegulatorsArePositive, TriangulationsHaveRegulators, LocalToGlobal};
ghost use Rattle.lt_geometry.specs.Walls.{WallFormsAreDefinite, OnePointOnEllipsoid, FewPointsOnEllipsoid};
ghost use Rattle.lt_geometry.specs.Exchanges.{ExchangedAreMembers, OneOuterVertex, MadeFromExchanged};
ghost use Rattle.lt_geometry.specs.Flips.{FlipsAreDelaunay, FlipsAreAcross, FlipsExist, AcrossIsFlip, OneAcross, ReachedByFlips};
ghost use Rattle.lt_geometry.specs.Plane.{PlaneIsDelaunay, PlaneRegulators, PlaneWalls, PlaneFlips, PlaneMatrices};
ghost use Rattle.lt_geometry.specs.Principal.{PrincipalIsDelaunay, PrincipalRegulators, PrincipalFacets};
ghost use Rattle.lt_geometry.specs.Carrying.{IsEquivalentToItself, InverseCarriesBack, ProductsCarry, ImagesAreDelaunay, CrossingsAreCarried, FlipsAreCarried, WhatCarriesIsACandidate, OrdersHaveOneCandidate};

/// `N(Q)` is linear in the form `Q`.
pub fn normals_are_linear()
    ensures { NormalsAreLinear }
{}

/// `Q[x]` is linear in the form `Q`.
pub fn values_are_linear()
    ensures { ValuesAreLinear }
{}

/// The parallelogram law: `Q[x + y] + Q[x - y] = 2 Q[x] + 2 Q[y]`.
pub fn parallelogram_law()
    ensures { ParallelogramLaw }
{}

/// An excess stays the same where simplex and point are moved together.
pub fn excesses_move_along()
    ensures { ExcessesMoveAlong }
{}

/// Two expressions of one point over a simplex are multiples of each other.
pub fn expressions_are_proportional()
    ensures { ExpressionsAreProportional }
{}

/// A set of classes that paves space and is empty for a form is its Delaunay triangulation.
pub fn paving_is_delaunay()
    ensures { EveryPavingIsDelaunay }
{}

/// A form has at most one Delaunay triangulation.
pub fn one_triangulation()
    ensures { FormsHaveOneTriangulation }
{}

/// The principal triangulation is the Delaunay triangulation of the principal form.
pub fn principal_is_delaunay()
    ensures { PrincipalIsDelaunay }
{}

/// The regulators of the principal triangulation, from dimension 2 on.
pub fn principal_regulators()
    ensures { PrincipalRegulators }
{}

/// Each of them is a facet.
pub fn principal_facets()
    ensures { PrincipalFacets }
{}

/// A combination of the vertices of a strictly empty simplex with no negative number is a vertex, if it is an integer point.
pub fn points_inside_are_vertices()
    ensures { PointsInsideAreVertices }
{}

/// Two members that share a facet and differ lie on opposite sides of it.
pub fn members_lie_opposite()
    ensures { MembersLieOpposite }
{}

/// A facet of a member has one neighbour.
pub fn neighbours_are_unique()
    ensures { NeighboursAreUnique }
{}

/// A member is the neighbour of its neighbour.
pub fn neighbours_are_mutual()
    ensures { NeighboursAreMutual }
{}

/// The excess of the outer vertex of a neighbour is positive.
pub fn outer_vertices_lie_above()
    ensures { OuterVerticesLieAbove }
{}

/// Each facet of a member has one regulator, and these are all regulators.
pub fn facets_have_one_regulator()
    ensures { FacetsHaveOneRegulator }
{}

/// The regulator of a facet is the same from both sides.
pub fn regulators_are_mutual()
    ensures { RegulatorsAreMutual }
{}

/// Regulators are primitive, and positive at each form of the triangulation.
pub fn regulators_are_positive()
    ensures { RegulatorsArePositive }
{}

/// A Delaunay triangulation has a regulator.
pub fn triangulations_have_regulators()
    ensures { TriangulationsHaveRegulators }
{}

/// Local to global: a Delaunay triangulation of some form is that of exactly the forms at which its regulators are
/// positive.
pub fn local_to_global()
    ensures { LocalToGlobal }
{}

/// Wall forms are positive definite, from dimension 2 on.
pub fn wall_forms_are_definite()
    ensures { WallFormsAreDefinite }
{}

/// Of the points outside a member at most one has the excess 0 at a wall form.
pub fn one_point_on_ellipsoid()
    ensures { OnePointOnEllipsoid }
{}

/// At most d + 2 integer points lie on an empty ellipsoid of a wall form.
pub fn few_points_on_ellipsoid()
    ensures { FewPointsOnEllipsoid }
{}

/// The simplices that a flip takes out are the members with the regulator at a facet.
pub fn exchanged_are_members()
    ensures { ExchangedAreMembers }
{}

/// Across all facets of a member with the regulator lies one outer vertex.
pub fn one_outer_vertex()
    ensures { OneOuterVertex }
{}

/// The simplices that a flip puts in are made from those that it takes out.
pub fn made_from_exchanged()
    ensures { MadeFromExchanged }
{}

/// The flip at a facet is the Delaunay triangulation of `m W - A` for every large `m`.
pub fn flips_are_delaunay()
    ensures { FlipsAreDelaunay }
{}

/// The flip at a facet lies across it.
pub fn flips_are_across()
    ensures { FlipsAreAcross }
{}

/// Each facet has a flip.
pub fn flips_exist()
    ensures { FlipsExist }
{}

/// What lies across a facet is its flip.
pub fn across_is_flip()
    ensures { AcrossIsFlip }
{}

/// Exactly one triangulation lies across a facet.
pub fn one_across()
    ensures { OneAcross }
{}

/// Crossings and flips reach the same triangulations from the principal one, and each is Delaunay for some form.
pub fn reached_by_flips()
    ensures { ReachedByFlips }
{}

/// The worked example of dimension 2: its two classes are the principal triangulation, and the Delaunay triangulation
/// of the form `2 -2 2`.
pub fn plane_is_delaunay()
    ensures { PlaneIsDelaunay }
{}

/// Its regulators are `0 -1 0`, `0 1 2` and `2 1 0`, and no others.
pub fn plane_regulators()
    ensures { PlaneRegulators }
{}

/// The forms `1 0 1`, `2 -2 1` and `1 -2 2` are wall forms of them.
pub fn plane_walls()
    ensures { PlaneWalls }
{}

/// The flips across the three walls.
pub fn plane_flips()
    ensures { PlaneFlips }
{}

/// Three matrices that carry the flips back onto the principal triangulation.
pub fn plane_matrices()
    ensures { PlaneMatrices }
{}

/// The identity carries each set of classes onto itself, an inverse carries back, and a product carries where its factors do.
pub fn carrying_is_an_equivalence()
    ensures itself { IsEquivalentToItself }
    ensures back { InverseCarriesBack }
    ensures product { ProductsCarry }
{}

/// The ascending image of the Delaunay triangulation of a form is that of the form at the inverse images.
pub fn images_are_delaunay()
    ensures { ImagesAreDelaunay }
{}

/// What is across a facet of a triangulation goes to what is across a facet of its image, and so does the flip at a facet.
pub fn crossings_are_carried()
    ensures across { CrossingsAreCarried }
    ensures flip { FlipsAreCarried }
{}

/// Each matrix that carries comes from an order of the vertices of a member, which determines it.
pub fn matrices_come_from_orders()
    ensures each { WhatCarriesIsACandidate }
    ensures one { OrdersHaveOneCandidate }
{}

/// A Delaunay triangulation in dimension d has at most as many classes as there are choices of d of `2^d - 1` edges, and in
/// dimension 2 to 6 at most 2^27.
pub fn few_classes()
    ensures choices { ClassesAreChoices }
    ensures few { FewClasses }
{}

/// It has at most one regulator for each facet of a class, and in dimension 2 to 6 at most 2^29.
pub fn few_regulators()
    ensures facets { RegulatorsAreAtFacets }
    ensures few { FewRegulators }
{}
