ghost use Rattle.std.specs.Prelude.{◌≡◌, ℕ, ◌+◌, ◌<◌, ◌≤◌, ◌↔◌, IsNone, IfSome};

/// The greatest number of fields that an object has.
pub const MAX_FIELDS: u8 = 254;

/// The greatest number of fields that an object has where there are the usual number of registers.
pub const USUAL_FIELDS: u8 = 62;

/// How many reference fields and how many number fields an object has: at least one field, and no more than
/// [`MAX_FIELDS`] of both kinds together.
#[derive(Clone, Copy, Debug, PartialEq, Eq)]
pub struct Shape {
    pub refs: u8,
    pub nums: u8,
    pub ghost some: { 0 < refs + nums },
    pub ghost few: { refs + nums ≤ 254 },
}

impl Shape {
    ghost use Rattle.hk_words.specs.Shape.{IsShape, size};

    /// None where there would be no field, or too many.
    pub fn new(refs: u8, nums: u8) -> Option<Shape>
        ensures none { IsNone result ↔ ¬ (IsShape refs nums) }
        ensures refs { IfSome result (λ shape. shape.refs ≡ refs) }
        ensures nums { IfSome result (λ shape. shape.nums ≡ nums) }
    {
        let fields = u16::from(refs) + u16::from(nums);
        if fields == 0 || fields > u16::from(MAX_FIELDS) {
            return None;
        }
        Some(Shape { refs, nums })
    }

    /// The number of reference fields.
    pub fn refs(&self) -> u8
        ensures { result ≡ self.now.refs }
    {
        self.refs
    }

    /// The number of number fields.
    pub fn nums(&self) -> u8
        ensures { result ≡ self.now.nums }
    {
        self.nums
    }

    /// The words of an object of this shape: its link word and its fields.
    pub fn words(&self) -> u32
        ensures { result ≡ size self.now }
    {
        1 + u32::from(self.refs) + u32::from(self.nums)
    }
}
