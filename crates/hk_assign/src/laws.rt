//! The law of what is answered and written.
ghost use Rattle.std.specs.Prelude.{◌≡◌, ◌≢◌, ℕ, List, String};
ghost use Rattle.std.specs.declared.alloc.Global.{Global};
ghost use Rattle.hk_io.specs.declared.Status.{Status};
ghost use Rattle.hk_io.specs.declared.Status.TheVariants as status;
ghost use Rattle.hk_assign.specs.Tool.{CallsFor, AreOneSheet};

/// The words and the bytes of an input call for one end of the program at most, and for one text. Where that is a sheet, two
/// texts that are called for are read as the same sheet.
pub fn one_end_and_one_text()
    ensures status { (words : List (String Global)) (bytes : List ℕ) (one other : Status) (text text' : List ℕ)
        → CallsFor words bytes one text → CallsFor words bytes other text' → one ≡ other }
    ensures text { (words : List (String Global)) (bytes : List ℕ) (one other : Status) (text text' : List ℕ)
        → CallsFor words bytes one text → CallsFor words bytes other text' → one ≢ status.Done → text ≡ text' }
    ensures sheet { (words : List (String Global)) (bytes : List ℕ) (text text' : List ℕ)
        → CallsFor words bytes status.Done text → CallsFor words bytes status.Done text' → AreOneSheet text text' }
{}
