//! Laws of images of facets, with nothing to run.

ghost use Rattle.lt_merge.specs.Laws.{FacetsHaveImages, FacetsHaveOneImage, CrossingsGoToImages};

/// Each facet of an entry that has a place in another atlas has one image there, and what lies across the facet is carried onto what lies
/// across its image.
pub fn facets_have_one_image()
    ensures images { FacetsHaveImages }
    ensures one { FacetsHaveOneImage }
    ensures across { CrossingsGoToImages }
{}
