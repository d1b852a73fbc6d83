//! Laws of the shared heap, over its definitions alone.
ghost use Rattle.hk_table.specs.Laws.{WordsAreLawful, SeenIsLegal, SeenTellsPlain};

/// Between any two steps of any threads the words are those of a lawful state, for the history of one run of all that was
/// done; so each reply in it is the one of the heap that never collects. What any pass has seen is legal.
pub fn one_lawful_run()
    ensures words { WordsAreLawful }
    ensures seen { SeenIsLegal }
{}

/// A call of a pass is refused exactly as the heap that never collects says, after what the pass has seen: the calls of others
/// don't matter to it.
pub fn refusals_are_plain()
    ensures { SeenTellsPlain }
{}
