//! The law of what is answered and written. The function takes no time; its clauses are the law.
ghost use Rattle.std.specs.Prelude.{◌≡◌, ℕ, List, String};
ghost use Rattle.std.specs.declared.alloc.Global.{Global};
ghost use Rattle.hk_replay.specs.declared.replayed.Replayed.{Replayed};
ghost use Rattle.hk_replay.specs.Tool.{CallsFor};

/// The words and the bytes of an input call for one end of the program at most, and for one text.
pub fn one_end_and_one_text()
    ensures status { (words : List (String Global)) (bytes : List ℕ) (one other : Replayed) (text text' : List ℕ)
        → CallsFor words bytes one text → CallsFor words bytes other text' → one ≡ other }
    ensures text { (words : List (String Global)) (bytes : List ℕ) (one other : Replayed) (text text' : List ℕ)
        → CallsFor words bytes one text → CallsFor words bytes other text' → text ≡ text' }
{}
