//! The laws of what is answered and written, and of the runs.
ghost use Rattle.std.specs.Prelude.{◌≡◌, ◌≢◌, ℕ, List, map, Some, String};
ghost use Rattle.std.specs.String.{string_bytes};
ghost use Rattle.std.specs.declared.alloc.Global.{Global};
ghost use Rattle.hk_words.specs.declared.geometry.Geometry.{Geometry};
ghost use Rattle.hk_words.specs.Geometry.{HasSizes};
ghost use Rattle.hk_io.specs.declared.Status.{Status};
ghost use Rattle.hk_io.specs.declared.Status.TheVariants as status;
ghost use Rattle.hk_sheet.specs.Faults.{sizes_of};
ghost use Rattle.hk_admit.specs.declared.checked.Admitted.{Admitted};
ghost use Rattle.hk_gen.specs.Made.{made};
ghost use Rattle.hk_front.specs.Input.{IsSheetOf};
ghost use Rattle.hk_top.specs.declared.tool.Command.TheVariants.{Make, Simulate};
ghost use Rattle.hk_top.specs.Headline.{Headline, LiveIsWithin};
ghost use Rattle.hk_top.specs.Tool.{asked, ReadsInput, CallsFor};

/// The words and the bytes of an input call for one end of the program at most, and for one text: two of which both are
/// called for are the same status, and the same bytes to be written. Only of the sheet that is made for a number there may be
/// several texts, each of which is read as it.
pub fn one_end_and_one_text()
    ensures status { (words : List (String Global)) (bytes : List ℕ) (one other : Status) (text text' : List ℕ)
        → CallsFor words bytes one text → CallsFor words bytes other text' → one ≡ other }
    ensures text { (words : List (String Global)) (bytes : List ℕ) (one other : Status) (text text' : List ℕ)
        → ((n : ℕ) → asked (map string_bytes words) ≢ Some (Make n)) → CallsFor words bytes one text → CallsFor words bytes other text' → text ≡ text' }
{}

/// The headline holds of the run of every admitted sheet.
pub fn headline_holds()
    ensures { (admitted : Admitted) (g : Geometry) → HasSizes g (sizes_of admitted.checked.sheet) → Headline g admitted.checked.sheet admitted.responses }
{}

/// What `check` and `run` are asked for of an admitted sheet is called for to its end, where no more words are live at the flips
/// of the run than the sheet declares. So, by what the top call says of ends that are called for, the program does it where
/// nothing fails. Likewise `sim`, where no more is live in the run of its sheet.
pub fn admitted_sheets_are_done()
    ensures sheets { (words : List (String Global)) (bytes : List ℕ) (admitted : Admitted) (g : Geometry)
        → ReadsInput words → IsSheetOf bytes admitted.checked.sheet → HasSizes g (sizes_of admitted.checked.sheet) → LiveIsWithin g admitted.checked.sheet
        → (text : List ℕ) × CallsFor words bytes status.Done text }
    ensures sims { (words : List (String Global)) (bytes : List ℕ) (n : ℕ) (g : Geometry)
        → asked (map string_bytes words) ≡ Some (Simulate n) → HasSizes g (sizes_of (made n)) → LiveIsWithin g (made n)
        → (text : List ℕ) × CallsFor words bytes status.Done text }
{}
