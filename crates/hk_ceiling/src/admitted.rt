//! Sheets with sections that are admitted.

ghost use Rattle.hk_ceiling.specs.Admission.{IsHeld};
ghost use Rattle.hk_ceiling.specs.Single.{IsHeld-prop};

use crate::told::Sections;
use hk_admit::Checked;
use hk_sheet::Ticks;

/// A sheet with sections that is admitted, with the response time of each high task, in sheet order, in ticks. There are at
/// most 64 sections and none is wrong, no high task has release jitter, and no response time is above its task's deadline.
#[derive(Debug, Drop)]
pub struct Held {
    pub checked: Checked,
    pub sections: Sections,
    pub responses: Ticks,
    pub ghost kept: { IsHeld checked.sheet sections responses } by { IsHeld-prop checked.sheet sections responses },
}
