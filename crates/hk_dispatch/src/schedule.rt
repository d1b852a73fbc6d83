//! Laws of the schedule of the high jobs alone. These functions take no time; their clauses are the laws.
ghost use Rattle.hk_dispatch.specs.Laws.{EndsAreAlone, JobsEndInTime};

/// Each high job of a session ends exactly when the schedule of the high jobs alone ends it, by the same choice among those
/// that are ready. So neither a low job nor the collector ever holds it up.
pub fn ends_are_alone()
    ensures { EndsAreAlone }
{}

/// Where the first row is chosen, each job of an admitted sheet whose arrival and response time lie within the run ends within
/// its response time, and so by its deadline.
pub fn jobs_end_in_time()
    ensures { JobsEndInTime }
{}
