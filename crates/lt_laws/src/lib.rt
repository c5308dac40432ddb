//! Laws on forms and triangulations that no program calls, each the contract of a function with an empty body: negatives,
//! edges and shortest points, the principal triangulation in full, why facets suffice, circumradii, and facets of linear
//! sections of secondary cones.
#![tactic(auto)]

ghost use Rattle.lt_geometry.specs.Principal.{NormalsSay, PrincipalExists, PrincipalCount};
ghost use Rattle.lt_laws.specs.Negatives.{NegativesAreMembers, NegativesAreClasses, TriangulationsAreHalved};
ghost use Rattle.lt_laws.specs.Facets.{RegulatorsAreListed, FacetsBoundTheCone, FacetsSuffice, ReachedFacetsSuffice};
ghost use Rattle.lt_laws.specs.Carried.{RegulatorsAreCarried, FacetsAreCarried};
ghost use Rattle.lt_laws.specs.Circumradii.{CentresExist, CentresAreUnique, BallsAreEmpty};
ghost use Rattle.lt_laws.specs.Covering.{CentresMoveAlong, EachPointIsCovered, GreatestRadiusCovers};
ghost use Rattle.lt_laws.specs.Edges.{ParitiesHaveOneEdge, ShortestAreEdges, EdgesAreParities, EdgesReachBelow, LeastEdgesAreShortest, EdgesAreListed};
ghost use Rattle.lt_laws.specs.Sections.{SectionFacetsAreLiveOrDead, OneWallTells};

/// The negative of a member is a member, and no member is its own negative, from dimension 2 on. So half of the members, of each
/// pair the one that comes first, tell all of them.
pub fn negatives_are_members()
    ensures members { NegativesAreMembers }
    ensures classes { NegativesAreClasses }
    ensures halved { TriangulationsAreHalved }
{}

/// Each parity but that of 0 has exactly one edge, which with its negative is the only shortest of the parity.
pub fn parities_have_one_edge()
    ensures { ParitiesHaveOneEdge }
{}

/// A shortest point is an edge or the negative of one.
pub fn shortest_are_edges()
    ensures { ShortestAreEdges }
{}

/// There are `2^d - 1` edges.
pub fn edges_are_parities()
    ensures { EdgesAreParities }
{}

/// Each point but 0 is an edge, or the negative of one, or some edge is shorter.
pub fn edges_reach_below()
    ensures { EdgesReachBelow }
{}

/// An edge with the least value of all edges is a shortest point.
pub fn least_edges_are_shortest()
    ensures { LeastEdgesAreShortest }
{}

/// What the two kinds of normals of the principal triangulation are in the coefficients of a form.
pub fn normals_say()
    ensures { NormalsSay }
{}

/// The principal triangulation exists.
pub fn principal_exists()
    ensures { PrincipalExists }
{}

/// It has `d (d + 1) / 2` regulators, from dimension 2 on.
pub fn principal_count()
    ensures { PrincipalCount }
{}

/// A Delaunay triangulation has the ascending list of its regulators.
pub fn regulators_are_listed()
    ensures { RegulatorsAreListed }
{}

/// A carrying matrix takes regulators to regulators, and facets to facets: to the normals with the same values at the carried forms.
pub fn normals_are_carried()
    ensures regulators { RegulatorsAreCarried }
    ensures facets { FacetsAreCarried }
{}

/// A form that is positive at all facets of the secondary cone is positive at all regulators.
pub fn facets_bound_the_cone()
    ensures { FacetsBoundTheCone }
{}

/// So a Delaunay triangulation of some form is that of exactly the forms at which its facets are positive.
pub fn facets_suffice()
    ensures { FacetsSuffice }
{}

/// This holds of each triangulation that facet crossings reach from the principal one.
pub fn reached_facets_suffice()
    ensures { ReachedFacetsSuffice }
{}

/// A simplex has a circumcentre at each positive definite form.
pub fn centres_exist()
    ensures { CentresExist }
{}

/// It has one circumcentre only, and one squared circumradius.
pub fn centres_are_unique()
    ensures { CentresAreUnique }
{}

/// Over a strictly empty simplex no integer point is nearer to the circumcentre than the vertices.
pub fn balls_are_empty()
    ensures { BallsAreEmpty }
{}

/// The circumcentre moves along with the simplex, and the squared circumradius stays.
pub fn centres_move_along()
    ensures { CentresMoveAlong }
{}

/// Each rational point is as near to an integer point as the circumradius of some member.
pub fn each_point_is_covered()
    ensures { EachPointIsCovered }
{}

/// So no rational point is farther from the integer points than the greatest circumradius of a member.
pub fn greatest_radius_covers()
    ensures { GreatestRadiusCovers }
{}

/// The edges of a triangulation are the members of one ascending list.
pub fn edges_are_listed()
    ensures { EdgesAreListed }
{}

/// A facet of a linear section of a secondary cone is live, with positive definite forms at all its walls, or dead, with
/// one edge that has the value 0 at all of them; never both.
pub fn section_facets_are_live_or_dead()
    ensures { SectionFacetsAreLiveOrDead }
{}

/// The edges at the form of one wall tell which.
pub fn one_wall_tells()
    ensures { OneWallTells }
{}
