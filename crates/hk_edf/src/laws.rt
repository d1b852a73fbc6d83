//! Laws of earliest deadlines, over definitions alone. These functions take no time; their clauses are the laws.
ghost use Rattle.hk_edf.specs.InTime.{ChoiceGoesByDeadlines, WholeWhenDue, DeadlinesAreMet};
ghost use Rattle.hk_edf.specs.TooMuch.{NoScheduleFits};
ghost use Rattle.hk_edf.specs.Refusals.{AdmittedIsNotRefused, OneRefusal, RefusedFitsNowhere};
ghost use Rattle.hk_edf.specs.Sessions.{EarliestIsChoice, JobsEndByDeadlines};
ghost use Rattle.hk_edf.specs.Headline.{HeadlineHolds};
ghost use Rattle.hk_edf.specs.Reserve.{ReserveHolds};
ghost use Rattle.hk_edf.specs.Tool.{OneEnd, OneText, AdmittedIsDone};

/// The row with the least deadline is one of the rows, so that each law of sessions holds where it is chosen.
pub fn earliest_is_choice()
    ensures { EarliestIsChoice }
{}

/// Where what is due fits up to a length in which all work that arrives there is done, each job ends by its deadline: in each
/// schedule that goes by deadlines, and so in the one that goes by the choice of the least.
pub fn deadlines_are_met()
    ensures by_choice { ChoiceGoesByDeadlines }
    ensures whole { WholeWhenDue }
    ensures met { DeadlinesAreMet }
{}

/// In a session that goes by earliest deadlines each high job of an admitted sheet ends by its deadline, and when the schedule
/// of the high jobs alone ends it: where the deadline lies within the run, and is reached before the collector finds too many
/// words reserved.
pub fn jobs_end_by_deadlines()
    ensures { JobsEndByDeadlines }
{}

/// The headline holds of the run of every admitted sheet: its high jobs end by their deadlines, its heap has room, and each
/// reply is that of the heap that never collects.
pub fn headline_holds()
    ensures { HeadlineHolds }
{}

/// In the run of every admitted sheet what the collector owes stays within the analysis, each cycle is paid for, each New finds
/// room, and the collector waits for nobody. So it is by any choice among the high jobs.
pub fn reserve_holds()
    ensures { ReserveHolds }
{}

/// Where more is due within a time than it has ticks, no schedule ends all of it in time.
pub fn no_schedule_fits()
    ensures { NoScheduleFits }
{}

/// The high tasks of a sheet that is refused since too much is due can be scheduled by nobody.
pub fn refused_fits_nowhere()
    ensures { RefusedFitsNowhere }
{}

/// An admitted sheet has no refusal but want of memory. So the check is `Ok` exactly where nothing is wrong with a sheet.
pub fn no_refusal()
    ensures { AdmittedIsNotRefused }
{}

/// A sheet has one refusal at most, but for want of memory: the first.
pub fn one_refusal()
    ensures { OneRefusal }
{}

/// The words and the bytes of an input call for one end of the program at most, and for one text.
pub fn one_end_and_one_text()
    ensures status { OneEnd }
    ensures text { OneText }
{}

/// The run of an admitted sheet is called for to its end, where no more words are live at the flips of the run than the sheet
/// declares. So, by what the top call says of ends that are called for, the program does it where nothing fails.
pub fn admitted_sheets_are_done()
    ensures { AdmittedIsDone }
{}
