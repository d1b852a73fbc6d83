//! Laws of the choice by ceilings: of the schedule of the high jobs alone, and of sessions. These functions take no time; their
//! clauses are the laws.
ghost use Rattle.std.specs.Prelude.{◌≡◌, ◌≢◌, ℕ, List};
ghost use Rattle.hk_sheet.specs.declared.sheet.Sheet.{Sheet};
ghost use Rattle.hk_admit.specs.Facts.{IsChecked};
ghost use Rattle.hk_ceiling.specs.declared.told.Section.{Section};
ghost use Rattle.hk_ceiling.specs.declared.refused.CeilRefused.{CeilRefused};
ghost use Rattle.hk_ceiling.specs.declared.refused.CeilRefused.TheVariants.{Memory};
ghost use Rattle.hk_ceiling.specs.Admission.{IsHeld, IsCeilRefusal};
ghost use Rattle.hk_ceiling.specs.Headline.{HeadlineHolds};
ghost use Rattle.hk_ceiling.specs.Promises.{OneHolder, HeldUpByOne, EndInTime};
ghost use Rattle.hk_ceiling.specs.Sessions.{CeilingsChoose, OneHolderAtATime, HeldUpByOneSection, JobsEndWithin};
ghost use Rattle.hk_ceiling.specs.Tool.{OneEnd, OneText, AdmittedIsDone};

/// The law of exclusion: at no tick do two jobs hold one resource.
pub fn one_job_holds_a_resource()
    ensures { OneHolder }
{}

/// The law of holding up: what holds a job up is one section of one job of a later task.
pub fn one_section_holds_a_job_up()
    ensures { HeldUpByOne }
{}

/// The law of response times, with room for one section.
pub fn response_bounds_every_job()
    ensures { EndInTime }
{}

/// The choice by ceilings is one of the rows that it is told.
pub fn ceilings_choose()
    ensures { CeilingsChoose }
{}

/// In a session whose high jobs are chosen by the ceilings of sections of which none is wrong, no two jobs hold one resource at
/// one tick.
pub fn sessions_exclude()
    ensures { OneHolderAtATime }
{}

/// And a job is held up by at most one section of one job of a later task.
pub fn sessions_hold_up_once()
    ensures { HeldUpByOneSection }
{}

/// And each job whose arrival and response time lie within the run ends within its response time, which has room for one section
/// of a later task, and when the schedule of the high jobs alone ends it.
pub fn sessions_end_in_time()
    ensures { JobsEndWithin }
{}

/// All that is promised of the run of a sheet that is admitted with its sections.
pub fn headline_holds()
    ensures { HeadlineHolds }
{}

/// A sheet and sections with what [`Held`](crate::Held) keeps of them have no refusal but want of memory. So a sheet is admitted
/// exactly where nothing is wrong with it and its sections.
pub fn no_refusal()
    ensures { (sheet : Sheet) (sections : List Section) (work attempt busy debt : ℕ) (responses : List ℕ) (refused : CeilRefused)
        → IsChecked sheet work attempt busy debt → IsHeld sheet sections responses → IsCeilRefusal sheet sections refused → refused ≡ Memory }
{}

/// They have one refusal at most, but for want of memory: the first.
pub fn one_refusal()
    ensures { (sheet : Sheet) (sections : List Section) (one other : CeilRefused)
        → IsCeilRefusal sheet sections one → IsCeilRefusal sheet sections other → one ≢ Memory → other ≢ Memory → one ≡ other }
{}

/// The words and the bytes of an input call for one end of the program at most, and for one text.
pub fn one_end_and_one_text()
    ensures status { OneEnd }
    ensures text { OneText }
{}

/// The run of a sheet that is admitted with the sections of the words is called for to its end, where no more words are live at
/// the flips of the run than the sheet declares. So, by what the top call says of ends that are called for, the program does it
/// where nothing fails.
pub fn admitted_sheets_are_done()
    ensures { AdmittedIsDone }
{}
