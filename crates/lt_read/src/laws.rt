//! Laws on reading, which no program calls.

ghost use Rattle.lt_read.specs.Laws.{BytesHaveOneRefusal, WhatIsReadIsNotRefused, BytesAreReadOnce};
ghost use Rattle.lt_read.specs.Laws.{StartsHaveNoStuckMarks, WhatIsReadHasNoStuckMarks, AtlasesAreResumed};

/// A law, with nothing to run: bytes are refused for one reason at most, and those that are read as a right atlas for
/// none; and they are read as one right atlas at most.
pub fn refusals_are_exact()
    ensures one { BytesHaveOneRefusal }
    ensures apart { WhatIsReadIsNotRefused }
    ensures once { BytesAreReadOnce }
{}

/// A law, with nothing to run: the text of an atlas of a run is accepted, and is read as the atlas with its entries and
/// crosses, where it has at most 100,001 entries and isn't too long. An atlas of a run began without wide and heavy
/// marks, as those do that `Atlas::start` and `read_atlas` answer.
pub fn atlases_are_resumed()
    ensures start { StartsHaveNoStuckMarks }
    ensures read { WhatIsReadHasNoStuckMarks }
    ensures resumed { AtlasesAreResumed }
{}
