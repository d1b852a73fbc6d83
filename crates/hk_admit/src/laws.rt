//! The laws of the answers.

ghost use Rattle.std.specs.Prelude.{◌≡◌, ◌≢◌, ℕ, List};
ghost use Rattle.hk_sheet.specs.declared.sheet.Sheet.{Sheet};
ghost use Rattle.hk_admit.specs.declared.refused.Refused.{Refused};
ghost use Rattle.hk_admit.specs.declared.refused.Refused.TheVariants.{Memory};
ghost use Rattle.hk_admit.specs.Analysis.{timings_of};
ghost use Rattle.hk_admit.specs.Conditions.{AreResponses};
ghost use Rattle.hk_admit.specs.Facts.{IsChecked};
ghost use Rattle.hk_admit.specs.Refusals.{IsHeapRefusal, IsRefusal};

/// A sheet with what [`Checked`](crate::Checked) keeps of it has no refusal but want of memory, and neither has one with
/// what [`Admitted`](crate::Admitted) keeps. So a check is `Ok` exactly where nothing is wrong with a sheet.
pub fn no_refusal()
    ensures checked { (sheet : Sheet) (work attempt busy debt : ℕ) (refused : Refused) → IsChecked sheet work attempt busy debt → IsHeapRefusal sheet refused → refused ≡ Memory }
    ensures admitted { (sheet : Sheet) (work attempt busy debt : ℕ) (responses : List ℕ) (refused : Refused) → IsChecked sheet work attempt busy debt → AreResponses (timings_of sheet.high) responses → IsRefusal sheet refused → refused ≡ Memory }
{}

/// A sheet has one refusal at most, but for want of memory: the first, with its numbers.
pub fn one_refusal()
    ensures heap { (sheet : Sheet) (one other : Refused) → IsHeapRefusal sheet one → IsHeapRefusal sheet other → one ≢ Memory → other ≢ Memory → one ≡ other }
    ensures whole { (sheet : Sheet) (one other : Refused) → IsRefusal sheet one → IsRefusal sheet other → one ≢ Memory → other ≢ Memory → one ≡ other }
{}
