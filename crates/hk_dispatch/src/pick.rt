//! The choice among the high jobs that are ready.
ghost use Rattle.std.specs.Prelude.{◌≡◌, ℕ, ◌<◌, List, length};

use hk_plan::Ready;

/// A choice among the high jobs that are ready.
///
/// It is told one row for each high task that has a ready job, in the order of the sheet. It takes no memory.
pub trait Pick: Drop {
    ghost use Rattle.hk_plan.specs.declared.Ready.{Ready};
    ghost use Rattle.hk_dispatch.specs.Rows.{TasksRise, IsChoice};

    /// The place of the row that is chosen: a function of the choice and of the rows.
    ghost choice: { Self → List Ready → ℕ };

    /// Chooses one of the rows. There is at least one, and their tasks rise.
    fn pick(&self, ready: &[Ready]) -> usize
        requires some { 0 < length ready.now }
        requires rising { TasksRise ready.now }
        ensures chosen { result ≡ choice self.now ready.now }
        ensures within { result < length ready.now };

    /// Of any such rows it chooses one.
    ghost chooses: { (pick : Self) → IsChoice (choice pick) };
}

/// The first row: the job of the first high task in the order of the sheet.
#[derive(Clone, Copy, Debug, PartialEq, Eq)]
pub struct First;

impl Pick for First {
    ghost choice = { λ pick rows. 0 };

    ghost chooses = { λ pick rows some rising. some };

    fn pick(&self, _ready: &[Ready]) -> usize {
        0
    }
}
