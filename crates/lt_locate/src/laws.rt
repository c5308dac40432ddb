ghost use Rattle.lt_locate.specs.Laws.{OneEnd, WalksEndInside};

/// A law, with nothing to run: the walk of a form ends in one way at most, after so many crossings, at one triangulation and for one
/// reason. So each answer of `locate` comes exactly where its reason applies, want of memory aside.
pub fn one_end()
    ensures { OneEnd }
{}

/// A law, with nothing to run: where each facet is positive at the form, the walk has come to its Delaunay triangulation.
pub fn walks_end_inside()
    ensures { WalksEndInside }
{}
