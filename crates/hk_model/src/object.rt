ghost use Rattle.std.specs.Prelude.{◌≡◌, ℕ, ◌<◌, length, Option, None, IfOk, slice_index, slice_index_or, slice_set};
ghost use Rattle.hk_model.specs.Heap.{made};

use hk_words::Shape;
use std::alloc::{AllocError, Global};
use std::marker::Model;

/// An object of the heap: its shape, and the cells of its fields. A reference cell holds null or a birth.
#[derive(Drop)]
pub struct StoredObject {
    shape: Shape,
    refs: Vec<Option<usize>>,
    nums: Vec<u64>,
}

impl Model for StoredObject {
    ghost use Rattle.hk_model.specs.Heap.{Object};

    ghost Value = { Object };

    ghost view = { λ o. record { shape = o.shape; refs = o.refs.items; nums = o.nums.items } };
}

impl StoredObject {
    /// An object whose cells are null and 0.
    #[tactic(auto, unfolding(crate::specs::Heap::made))]
    pub fn new(alloc: Global, shape: Shape) -> Result<StoredObject, AllocError>
        ensures { IfOk result (λ o. o ≡ made shape) }
    {
        let refs = vec![in alloc; None; usize::from(shape.refs())]?;
        let nums = vec![in alloc; 0; usize::from(shape.nums())]?;
        Ok(StoredObject { shape, refs, nums })
    }

    /// What the object is made of.
    pub fn shape(&self) -> Shape
        ensures { result ≡ self.now.shape }
    {
        self.shape
    }

    /// What a reference cell holds.
    pub fn reference(&self, field: u8) -> Option<usize>
        requires { field < length self.now.refs }
        ensures { result ≡ slice_index_or self.now.refs field None }
    {
        self.refs[usize::from(field)]
    }

    /// What a number cell holds.
    pub fn number(&self, field: u8) -> u64
        requires { field < length self.now.nums }
        ensures { result ≡ slice_index self.now.nums field }
    {
        self.nums[usize::from(field)]
    }

    /// Writes a reference cell.
    pub fn set_reference(&mut self, field: u8, birth: Option<usize>)
        requires { field < length self.old.refs }
        ensures { self.new ≡ record self.old { refs = slice_set self.old.refs field birth } }
    {
        self.refs[usize::from(field)] = birth;
    }

    /// Writes a number cell.
    pub fn set_number(&mut self, field: u8, number: u64)
        requires { field < length self.old.nums }
        ensures { self.new ≡ record self.old { nums = slice_set self.old.nums field number } }
    {
        self.nums[usize::from(field)] = number;
    }
}
