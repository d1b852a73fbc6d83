//! What a pass can ask about its own registers, without a step.
ghost use Rattle.std.specs.Prelude.{◌≡◌, ◌↔◌, ℕ, ◌<◌, IsTrue, slice_index};
ghost use Rattle.hk_words.specs.declared.call.Call.TheVariants.{Same, IsNull};
ghost use Rattle.hk_model.specs.Heap.{opening_of};
ghost use Rattle.hk_model.specs.History.{after};
ghost use Rattle.hk_model.specs.Replies.{reply_of, said};
ghost use Rattle.hk_table.specs.Passes.{IsPassOf, known};

use crate::heap::Heap;
use crate::pass::Pass;

impl Heap {
    /// The register is null. It is what the heap that never collects answers after what the pass has seen.
    pub fn is_null(&self, pass: &Pass, reg: u8) -> bool
        requires pass { IsPassOf self.now pass.now }
        requires register { reg < self.now.geometry.registers }
        ensures word { IsTrue result ↔ (slice_index (known pass.now).registers reg ≡ 0) }
        ensures plain { reply_of (after (opening_of self.now.geometry) (known pass.now).seen) (known pass.now).seat (IsNull reg) ≡ said result }
    {
        pass.register(reg) == 0
    }

    /// Two registers refer to one object, or are both null. It is what the heap that never collects answers after what the
    /// pass has seen.
    pub fn same(&self, pass: &Pass, a: u8, b: u8) -> bool
        requires pass { IsPassOf self.now pass.now }
        requires first { a < self.now.geometry.registers }
        requires second { b < self.now.geometry.registers }
        ensures word { IsTrue result ↔ (slice_index (known pass.now).registers a ≡ slice_index (known pass.now).registers b) }
        ensures plain { reply_of (after (opening_of self.now.geometry) (known pass.now).seen) (known pass.now).seat (Same a b) ≡ said result }
    {
        pass.register(a) == pass.register(b)
    }
}
