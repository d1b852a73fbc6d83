//! Sheets that were looked at, with the numbers of the analysis.

ghost use Rattle.hk_admit.specs.Facts.{IsChecked};
ghost use Rattle.hk_admit.specs.Analysis.{timings_of};
ghost use Rattle.hk_admit.specs.Conditions.{AreResponses};
ghost use Rattle.hk_admit.specs.Single.{IsChecked-prop, AreResponses-prop};

use hk_sheet::{Sheet, Ticks};

/// A sheet whose tasks keep to what they declare and whose heap has room for them, with its numbers: the most events of
/// a whole collection cycle, the most events of an attempt that a job can spoil, the length of the busy period in ticks,
/// and the most events that the collector can owe in it. Whether jobs end in time isn't said.
#[derive(Debug, Drop)]
pub struct Checked {
    pub sheet: Sheet,
    pub work: u64,
    pub attempt: u64,
    pub busy: u64,
    pub debt: u64,
    pub ghost sound: { IsChecked sheet work attempt busy debt } by { IsChecked-prop sheet work attempt busy debt },
}

/// A sheet that is admitted, with the response time of each high task, in sheet order, in ticks: none is above the
/// task's deadline.
#[derive(Debug, Drop)]
pub struct Admitted {
    pub checked: Checked,
    pub responses: Ticks,
    pub ghost in_time: { AreResponses (timings_of checked.sheet.high) responses } by { AreResponses-prop (timings_of checked.sheet.high) responses },
}
