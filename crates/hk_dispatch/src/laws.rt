//! Laws of sessions, over definitions alone. These functions take no time; their clauses are the laws.
ghost use Rattle.hk_words.specs.declared.geometry.Geometry.{Geometry};
ghost use Rattle.hk_dispatch.specs.Rules.{RulesApply, HighFirst, RowsRise, ReadyMomentsRise};
ghost use Rattle.hk_dispatch.specs.Laws.{RunIsInterleaving, LegalInAnyOrder, HistoryIsLegal, QuestionsAreAnswered, JobsAreKept, OneLowOperation, IdleExactly, DebtIsAccounted, UsefulWithin, FlipIsUseful, CollectorNeverWaits, LiveOverHasCause, NoTaskIsSpent, UsedIsPaid, LossesAreFew, DebtWithin, QuietAgain, UsedWithin, HighNewsFindRoom, LowNewsBeginQuiet, LowNewsFindRoom, NoNewIsRefused, SessionIsReplay};

/// Each tick goes by one of the five rules, where it applies and none before it does: to a high task exactly where one has a
/// ready job, and then to that of the row which the choice names. The rows that the choice is told rise, and the jobs of a
/// high task become ready in their order.
pub fn rules_decide()
    ensures apply { RulesApply }
    ensures high { HighFirst }
    ensures rows { RowsRise }
    ensures ready { ReadyMomentsRise }
{}

/// At every moment of a session the run of its heap is an interleaving of begins, steps and events; its history is legal, so
/// each reply in it is that of the heap that never collects, and so it is of every interleaving. So is the answer to each question.
pub fn heap_is_legal()
    ensures run { RunIsInterleaving }
    ensures orders { (g : Geometry) → LegalInAnyOrder g }
    ensures history { HistoryIsLegal }
    ensures questions { QuestionsAreAnswered }
{}

/// At every moment each job is in its script, a high one within the ticks and words that its task declares; the calls in flight
/// are in step with the jobs; and one low operation at most is in mid-course.
pub fn jobs_keep_scripts()
    ensures jobs { JobsAreKept }
    ensures low { OneLowOperation }
{}

/// A tick goes to nobody exactly where no job is ready and the collector owes nothing.
pub fn idle_exactly()
    ensures { IdleExactly }
{}

/// The events of the collector and those that it owes are the rate for each word taken, and the events of the attempts that it
/// lost. The rate for each word used since the last flip is at most the useful events of the cycle and what is owed.
pub fn debt_is_accounted()
    ensures account { DebtIsAccounted }
    ensures paid { UsedIsPaid }
{}

/// At its ticks the collector waits for no call and never runs out of cycles, and the useful events of a cycle, of which the flip is
/// the first, are at most the number of the analysis.
pub fn collector_never_waits()
    ensures waits { CollectorNeverWaits }
    ensures flip { FlipIsUseful }
    ensures useful { UsefulWithin }
{}

/// The collector finds more words reserved than the space has for evacuation only where more words were live, at the last flip,
/// in the heap that never collects than the sheet declares.
pub fn live_over_has_cause()
    ensures { LiveOverHasCause }
{}

/// No task of a run is refused a call since it has begun as many as it can.
pub fn no_task_is_spent()
    ensures { NoTaskIsSpent }
{}

/// The events of all lost attempts are at most an attempt for each high job that has arrived and for each object for which a low
/// task took words.
pub fn losses_are_few()
    ensures { LossesAreFew }
{}

/// What the collector owes is at most the number of the analysis, and from each quiet moment another follows within the busy
/// period of the analysis.
pub fn debt_stays_within()
    ensures debt { DebtWithin }
    ensures quiet { QuietAgain }
{}

/// Each collection cycle ends before the reserve is spent: the words used leave room for the largest object of a low task. Each New
/// of a high job finds room for its object; each New of a low job begins with nothing owed and finds room beside the reserve, and
/// room for its object where it takes the words.
pub fn cycles_end_in_time()
    ensures used { UsedWithin }
    ensures high { HighNewsFindRoom }
    ensures low_begin { LowNewsBeginQuiet }
    ensures low { LowNewsFindRoom }
{}

/// No New of a run is refused.
pub fn no_new_is_refused()
    ensures { NoNewIsRefused }
{}

/// What the jobs put out, their faults and their ends are those of the same jobs on the heap that never collects, by who got each
/// tick.
pub fn session_is_replay()
    ensures { SessionIsReplay }
{}
