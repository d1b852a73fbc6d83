ghost use Rattle.std.specs.Prelude.{◌≡◌, ℕ, ◌+◌, ◌*◌, ◌<◌, ◌≤◌, ◌≢◌, List, length};
ghost use Rattle.hk_words.specs.declared.geometry.Geometry.{Geometry};
ghost use Rattle.hk_words.specs.Geometry.{tasks, numbers, list_length, marks_from, frames_from, registers_from, lists_from, spaces_from, row_length};
ghost use Rattle.hk_words.specs.Row.{IsRegister, IsEntry, IsPlace, w0_at, w1_at, header_at, mark_at, frame_at, register_at, entry_at, space_at, IsSpaceWord, place_at};
ghost use Rattle.hk_words.specs.Row.{Slot, InRow, index_of, slot_at, word_of, with_word};

use crate::Geometry;

/// Where each word stands in the row.
impl Geometry {
    fn marks_from(&self) -> u32
        ensures { result ≡ marks_from self.now }
    {
        self.first_mark
    }

    fn frames_from(&self) -> u32
        ensures { result ≡ frames_from self.now }
    {
        self.first_frame
    }

    fn registers_from(&self) -> u32
        ensures { result ≡ registers_from self.now }
    {
        self.first_register
    }

    fn lists_from(&self) -> u32
        ensures { result ≡ lists_from self.now }
    {
        self.first_entry
    }

    fn spaces_from(&self) -> u32
        ensures { result ≡ spaces_from self.now }
    {
        self.first_word
    }

    /// The index of W0, the words used, the objects made and the cycle.
    pub fn w0_at(&self) -> u32
        ensures { result ≡ w0_at self.now }
    {
        0
    }

    /// The index of W1, the words reserved for evacuation.
    pub fn w1_at(&self) -> u32
        ensures { result ≡ w1_at self.now }
    {
        1
    }

    /// The index of the header of a number.
    pub fn header_at(&self, number: u32) -> u32
        requires { number < numbers self.now }
        ensures { result ≡ header_at self.now number }
    {
        2 + number
    }

    /// The index of the mark of a number.
    pub fn mark_at(&self, number: u32) -> u32
        requires { number < numbers self.now }
        ensures { result ≡ mark_at self.now number }
    {
        self.marks_from() + number
    }

    /// The index of the frame word of a seat.
    pub fn frame_at(&self, seat: u8) -> u32
        requires { seat < tasks self.now }
        ensures { result ≡ frame_at self.now seat }
    {
        self.frames_from() + u32::from(seat)
    }

    /// The index of a register of a seat. The registers stand seat by seat.
    pub fn register_at(&self, seat: u8, reg: u8) -> u32
        requires { IsRegister self.now seat reg }
        ensures { result ≡ register_at self.now seat reg }
    {
        self.registers_from() + u32::from(seat) * u32::from(self.registers()) + u32::from(reg)
    }

    /// The index of an entry of one of the two lists of free numbers.
    pub fn entry_at(&self, list: u8, entry: u32) -> u32
        requires { IsEntry self.now list entry }
        ensures { result ≡ entry_at self.now list entry }
    {
        self.lists_from() + u32::from(list) * (self.alloc() / 2) + entry
    }

    /// The index of the word at a place of the two spaces. Places begin at 1.
    pub fn space_at(&self, place: u32) -> u32
        requires { IsPlace self.now place }
        ensures { result ≡ space_at self.now place }
    {
        self.spaces_from() + (place - 1)
    }

    /// The place of a word of space 0 or space 1. In each space the words for evacuation come before those for
    /// allocation. 0 is no place.
    pub fn place_at(&self, space: u8, word: u32) -> u32
        requires { IsSpaceWord self.now space word }
        ensures { result ≡ place_at self.now space word }
    {
        1 + u32::from(space) * (self.live() + self.alloc()) + word
    }
}

/// What holds of the row of each geometry: each slot has an index of its own in the row, each index is a slot's, and
/// a write at a slot leaves the words of all others. The places of the words of the spaces differ too.
pub fn row_laws()
    ensures below { (g : Geometry) (slot : Slot) → InRow g slot → index_of g slot < row_length g }
    ensures distinct { (g : Geometry) (a b : Slot) → InRow g a → InRow g b → index_of g a ≡ index_of g b → a ≡ b }
    ensures found { (g : Geometry) (slot : Slot) → InRow g slot → slot_at g (index_of g slot) ≡ slot }
    ensures covered { (g : Geometry) (index : ℕ) → index < row_length g
        → InRow g (slot_at g index) × (index_of g (slot_at g index) ≡ index) }
    ensures same { (g : Geometry) (row : List ℕ) (slot : Slot) (word : ℕ) → InRow g slot → length row ≡ row_length g
        → word_of g (with_word g row slot word) slot ≡ word }
    ensures other { (g : Geometry) (row : List ℕ) (a b : Slot) (word : ℕ) → InRow g a → InRow g b → a ≢ b
        → word_of g (with_word g row a word) b ≡ word_of g row b }
    ensures length { (g : Geometry) (row : List ℕ) (slot : Slot) (word : ℕ)
        → length (with_word g row slot word) ≡ length row }
    ensures places { (g : Geometry) (space word : ℕ) → IsSpaceWord g space word → IsPlace g (place_at g space word) }
    ensures distinct_places { (g : Geometry) (s i t j : ℕ) → IsSpaceWord g s i → IsSpaceWord g t j
        → place_at g s i ≡ place_at g t j → (s ≡ t) × (i ≡ j) }
{}
