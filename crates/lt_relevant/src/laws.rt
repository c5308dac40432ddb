ghost use Rattle.lt_relevant.specs.Laws.{OneShortest};

/// A law, with nothing to run: a form has one least value at most and one list of shortest vectors. So the answer of `shortest` is the
/// only one that its contract allows, want of memory aside.
pub fn one_shortest()
    ensures { OneShortest }
{}
