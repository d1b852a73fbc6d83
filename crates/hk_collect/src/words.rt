//! Laws of the words for allocation, and of those reserved for evacuation.
ghost use Rattle.hk_collect.specs.Reserved.{ReservedIsClaimed};
ghost use Rattle.hk_collect.specs.Taken.{BeginsTakeNone, StepsTake, EventsTakeNone, FlipsBeginCycles};

/// The words used since the last flip grow by the third step of a New that found room, by those of its object, and by no
/// other action; the flip, which begins the next cycle, begins to count them anew.
pub fn words_taken()
    ensures begins { BeginsTakeNone }
    ensures steps { StepsTake }
    ensures events { EventsTakeNone }
    ensures flips { FlipsBeginCycles }
{}

/// The words reserved for evacuation are those of the objects that got a place in this cycle, each once; all of these were
/// claimed in it.
pub fn words_reserved()
    ensures { ReservedIsClaimed }
{}
