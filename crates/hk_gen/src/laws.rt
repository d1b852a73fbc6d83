//! What holds of all sheets that are made.

ghost use Rattle.std.specs.Prelude.{◌≡◌, ℕ, ◌++◌, codes, decimal};
ghost use Rattle.hk_script.specs.Printing.{text_of};
ghost use Rattle.hk_sheet.specs.Valid.{IsSheet};
ghost use Rattle.hk_admit.specs.declared.refused.Refused.{Refused};
ghost use Rattle.hk_admit.specs.declared.refused.Refused.TheVariants.{Memory};
ghost use Rattle.hk_admit.specs.Refusals.{IsRefusal};
ghost use Rattle.hk_gen.specs.Made.{high_script, low_script, made};
ghost use Rattle.hk_gen.specs.Admission.{IsAdmitted};

/// Whatever the number, the sheet that is made can be read, and is admitted: its cycles have at most 16,813 events and its
/// attempts 34, its busy period is at most 649 ticks, at most 359 events can be owed in it, and no response is above 210
/// ticks. So it has no refusal but want of memory. It takes no time; its clauses are the law.
pub fn made_sheets_are_admitted()
    ensures readable { (number : ℕ) → IsSheet (made number) }
    ensures admitted { (number : ℕ) → IsAdmitted (made number) 16813 34 649 359 210 }
    ensures no_refusal { (number : ℕ) (refused : Refused) → IsRefusal (made number) refused → refused ≡ Memory }
{}

/// The canonical texts of the scripts of the tasks, by their fields of the board.
pub fn scripts_as_texts()
    ensures high { (i work : ℕ) → text_of (high_script i work) ≡ codes "job v0\nnew r1 1 2\nput r1 0 v0\nload r2 r0 " ++ (decimal i ++ (codes "\nif null r2\nelse\nstore r2 0 r3\nget v1 r2 0\nend\nstore r1 0 r2\nstore r0 " ++ (decimal i ++ (codes " r1\nadd v0 v1\nout v0\nclear r1\nclear r2\nwork " ++ (decimal work ++ codes "\n"))))) }
    ensures low { (i : ℕ) → text_of (low_script i) ≡ codes "job v0\nnew r1 1 3\nput r1 0 v0\nload r2 r0 " ++ (decimal i ++ (codes "\nif null r2\nelse\nstore r2 0 r3\nend\nstore r1 0 r2\nstore r0 " ++ (decimal i ++ codes " r1\nclear r1\nclear r2\n"))) }
{}
