ghost use Rattle.lt_section.specs.Laws.{VerdictsTell};

/// A law, with nothing to run: a right verdict says live exactly where the restricted normal is a live facet, dead exactly
/// where it is a dead one, and neither exactly where it is no facet; each facet is live or dead.
pub fn verdicts_tell()
    ensures { VerdictsTell }
{}
