//! One task's way to the heap.
ghost use Rattle.std.specs.Prelude.{◌≡◌, ℕ, ◌+◌, ◌<◌, ◌≤◌, true, false};
ghost use Rattle.hk_words.specs.Calls.{RegistersFit};
ghost use Rattle.hk_words.specs.declared.geometry.Geometry.{Geometry};
ghost use Rattle.hk_model.specs.Heap.{opening_of};
ghost use Rattle.hk_model.specs.History.{History, after, is_question};
ghost use Rattle.hk_model.specs.Replies.{reply_of};
ghost use Rattle.hk_race.specs.Says.{Tells};

use hk_words::{Call, Reply};

/// The most calls that a pass begins.
pub const MOST_CALLS: u64 = 1 << 30;

/// What a call says.
#[derive(Clone, Copy, Debug, PartialEq, Eq)]
pub enum Said {
    /// It was done, with this reply.
    Done(Reply),
    /// It found so many words used, and no room.
    Full(u64),
    /// The register that it goes through is null.
    Nil,
    /// The object has no such field.
    Field,
}

/// The shared heap as one task uses it.
pub trait Desk {
    /// The geometry of the heap, and the task's seat.
    ghost geometry: { Self → Geometry };

    ghost seat: { Self → ℕ };

    /// What was seen, and how many calls were begun.
    ghost seen: { Self → History };

    ghost begun: { Self → ℕ };

    /// It is a pass of its heap that makes no call.
    ghost good: { Self → Type 0 };

    /// Two states are of one heap.
    ghost same: { Self → Self → Type 0 };

    /// A call.
    fn call(&mut self, call: Call) -> Said
        requires good { good self.old }
        requires question { is_question call ≡ false }
        requires registers { RegistersFit (geometry self.old).registers call }
        requires few { begun self.old < MOST_CALLS }
        ensures good { good self.new }
        ensures same { same self.old self.new }
        ensures geometry { geometry self.new ≡ geometry self.old }
        ensures seat { seat self.new ≡ seat self.old }
        ensures tells { Tells (opening_of (geometry self.old)) (seat self.old) call (seen self.old) (seen self.new) result }
        ensures begun { begun self.new ≤ begun self.old + 1 };

    /// A question about the task's registers.
    fn ask(&self, question: Call) -> Reply
        requires good { good self.now }
        requires question { is_question question ≡ true }
        requires registers { RegistersFit (geometry self.now).registers question }
        ensures { result ≡ reply_of (after (opening_of (geometry self.now)) (seen self.now)) (seat self.now) question };

    ghost same_refl: { (desk : Self) → same desk desk };

    ghost same_trans: { (a b c : Self) → same a b → same b c → same a c };
}
