//! What holds of all sheets and bytes.

ghost use Rattle.std.specs.Prelude.{◌≡◌, ℕ, List, Result, Ok, MatchResult};
ghost use Rattle.hk_sheet.specs.declared.error.SheetError.{SheetError};
ghost use Rattle.hk_sheet.specs.declared.error.SheetError.TheVariants.{Memory};
ghost use Rattle.hk_sheet.specs.declared.sheet.Sheet.{Sheet};
ghost use Rattle.hk_sheet.specs.Answers.{IsRead, Answers};

/// Bytes of which a sheet is read, as the text of a sheet is, have no other right answer, but for want of memory. It
/// takes no time; its clause is the law.
pub fn text_read_again()
    ensures { (sheet : Sheet) (bytes : List ℕ) (answer : Result Sheet SheetError) → IsRead bytes (Ok sheet) → Answers bytes answer
        → MatchResult answer (λ read. read ≡ sheet) (λ error. error ≡ Memory) }
{}
