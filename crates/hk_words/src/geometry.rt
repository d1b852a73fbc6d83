ghost use Rattle.std.specs.Prelude.{◌≡◌, ℕ, ◌+◌, ◌*◌, ◌/◌, ◌%◌, ◌<◌, ◌≤◌, MatchResult};

use crate::Shape;
use crate::shape::{MAX_FIELDS, USUAL_FIELDS};

/// The usual number of registers of a task.
pub const REGISTERS: u8 = 8;

/// The fewest registers that a task can have.
pub const MIN_REGISTERS: u8 = 2;

/// The most registers that a task can have.
pub const MAX_REGISTERS: u8 = 32;

/// The most tasks that one heap serves.
pub const MAX_TASKS: u8 = 31;

/// The most words that each of the two areas of a space has.
pub const MAX_WORDS: u32 = 65_536;

/// The fewest words that the area for allocation has.
pub const MIN_ALLOC: u32 = 16;

/// Why sizes and tasks are no geometry.
#[derive(Clone, Copy, Debug, PartialEq, Eq)]
pub enum GeoError {
    /// The area for evacuation or the one for allocation has an odd number of words.
    Odd,
    /// The area for evacuation doesn't hold the board, or the one for allocation is below [`MIN_ALLOC`] words.
    Small,
    /// One of the areas is above [`MAX_WORDS`] words.
    Large,
    /// The reserve is larger than the area for allocation.
    Reserve,
    /// There is no task, or there are more than [`MAX_TASKS`].
    Tasks,
    /// The board has no field, or too many.
    Board,
    /// A task has fewer than [`MIN_REGISTERS`] registers, or more than [`MAX_REGISTERS`].
    Registers,
}

/// The sizes of a heap, in words, and the tasks that use it. Each of the two spaces has `live` words for
/// evacuation and `alloc` words for allocation, of which `reserve` are kept for the high tasks. Where the parts of the
/// row begin follows from the sizes, and is kept, since each access to the heap asks for it.
#[derive(Clone, Copy, Debug, PartialEq, Eq)]
pub struct Geometry {
    pub live: u32,
    pub alloc: u32,
    pub reserve: u32,
    pub high: u8,
    pub low: u8,
    pub registers: u8,
    pub board: Shape,
    /// The index of the first mark.
    pub first_mark: u32,
    /// The index of the first frame word.
    pub first_frame: u32,
    /// The index of the first register.
    pub first_register: u32,
    /// The index of the first entry of the lists of free numbers.
    pub first_entry: u32,
    /// The index of the first word of the spaces.
    pub first_word: u32,
    pub ghost live_even: { live % 2 ≡ 0 },
    pub ghost alloc_even: { alloc % 2 ≡ 0 },
    pub ghost board_fits: { 1 + board.refs + board.nums ≤ live },
    pub ghost alloc_enough: { 16 ≤ alloc },
    pub ghost live_few: { live ≤ 65536 },
    pub ghost alloc_few: { alloc ≤ 65536 },
    pub ghost reserve_within: { reserve ≤ alloc },
    pub ghost tasks_some: { 0 < high + low },
    pub ghost tasks_few: { high + low ≤ 31 },
    pub ghost registers_some: { 2 ≤ registers },
    pub ghost registers_few: { registers ≤ 32 },
    pub ghost marks_begin: { first_mark ≡ 2 + (live / 2 + alloc) },
    pub ghost frames_begin: { first_frame ≡ first_mark + (live / 2 + alloc) },
    pub ghost registers_begin: { first_register ≡ first_frame + (high + low) },
    pub ghost entries_begin: { first_entry ≡ first_register + registers * (high + low) },
    pub ghost words_begin: { first_word ≡ first_entry + 2 * (alloc / 2) },
}

impl Geometry {
    ghost use Rattle.hk_words.specs.Geometry.{Sizes, first_error, HasSizes, tasks, numbers, row_length};

    /// The geometry of these sizes and tasks with the usual number of registers, or the first reason in the order of
    /// [`GeoError`] why there is none. The last two numbers are the reference fields and the number fields of the board, of
    /// which there are at most [`USUAL_FIELDS`] together.
    pub fn new(
        live: u32,
        alloc: u32,
        reserve: u32,
        high: u8,
        low: u8,
        refs: u8,
        nums: u8,
    ) -> Result<Geometry, GeoError>
        ensures { let sizes : Sizes = record { live = live; alloc = alloc; reserve = reserve; high = high; low = low; refs = refs; nums = nums; registers = 8 } in
            MatchResult result (λ g. (first_error 62 sizes ≡ None) × HasSizes g sizes) (λ e. first_error 62 sizes ≡ Some e) }
    {
        Geometry::of(
            REGISTERS,
            USUAL_FIELDS,
            (live, alloc, reserve),
            (high, low),
            (refs, nums),
        )
    }

    /// The geometry of these sizes and tasks with so many registers for each task, or the first reason in the order of
    /// [`GeoError`] why there is none. The board has at most [`MAX_FIELDS`] fields.
    pub fn wide(
        registers: u8,
        live: u32,
        alloc: u32,
        reserve: u32,
        high: u8,
        low: u8,
        refs: u8,
        nums: u8,
    ) -> Result<Geometry, GeoError>
        ensures { let sizes : Sizes = record { live = live; alloc = alloc; reserve = reserve; high = high; low = low; refs = refs; nums = nums; registers = registers } in
            MatchResult result (λ g. (first_error 254 sizes ≡ None) × HasSizes g sizes) (λ e. first_error 254 sizes ≡ Some e) }
    {
        Geometry::of(
            registers,
            MAX_FIELDS,
            (live, alloc, reserve),
            (high, low),
            (refs, nums),
        )
    }

    /// The geometry of words for evacuation, for allocation and in reserve, of high and low tasks, and of a board with at
    /// most so many reference fields and number fields.
    fn of(
        registers: u8,
        fields: u8,
        words: (u32, u32, u32),
        tasks: (u8, u8),
        board: (u8, u8),
    ) -> Result<Geometry, GeoError>
        requires fields { fields ≤ 254 }
        ensures { let sizes : Sizes = record { live = words.0; alloc = words.1; reserve = words.2; high = tasks.0; low = tasks.1; refs = board.0; nums = board.1; registers = registers } in
            MatchResult result (λ g. (first_error fields sizes ≡ None) × HasSizes g sizes) (λ e. first_error fields sizes ≡ Some e) }
    {
        let (live, alloc, reserve) = words;
        let (high, low) = tasks;
        let (refs, nums) = board;
        let board_fields = u16::from(refs) + u16::from(nums);
        if live % 2 != 0 || alloc % 2 != 0 {
            return Err(GeoError::Odd);
        }
        if live < 1 + u32::from(board_fields) || alloc < MIN_ALLOC {
            return Err(GeoError::Small);
        }
        if live > MAX_WORDS || alloc > MAX_WORDS {
            return Err(GeoError::Large);
        }
        if reserve > alloc {
            return Err(GeoError::Reserve);
        }
        let both = u16::from(high) + u16::from(low);
        if both == 0 || both > u16::from(MAX_TASKS) {
            return Err(GeoError::Tasks);
        }
        if board_fields == 0 || board_fields > u16::from(fields) {
            return Err(GeoError::Board);
        }
        if registers < MIN_REGISTERS || registers > MAX_REGISTERS {
            return Err(GeoError::Registers);
        }
        Ok(Geometry::laid_out(words, tasks, registers, Shape { refs, nums }))
    }

    /// The geometry of words for evacuation, for allocation and in reserve, of high and low tasks, of the registers of
    /// each, and of a board. Whoever calls it knows that they are a geometry.
    pub fn laid_out(
        words: (u32, u32, u32),
        tasks: (u8, u8),
        registers: u8,
        board: Shape,
    ) -> Geometry
        requires even { (words.0 % 2 ≡ 0) × (words.1 % 2 ≡ 0) }
        requires board_fits { 1 + board.refs + board.nums ≤ words.0 }
        requires alloc_enough { 16 ≤ words.1 }
        requires few { (words.0 ≤ 65536) × (words.1 ≤ 65536) }
        requires reserve_within { words.2 ≤ words.1 }
        requires tasks { (0 < tasks.0 + tasks.1) × (tasks.0 + tasks.1 ≤ 31) }
        requires registers { (2 ≤ registers) × (registers ≤ 32) }
        ensures { HasSizes result (record { live = words.0; alloc = words.1; reserve = words.2; high = tasks.0; low = tasks.1; refs = board.refs; nums = board.nums; registers = registers }) }
    {
        let (live, alloc, reserve) = words;
        let (high, low) = tasks;
        let seats = u32::from(high) + u32::from(low);
        let numbers = live / 2 + alloc;
        let first_mark = 2 + numbers;
        let first_frame = first_mark + numbers;
        let first_register = first_frame + seats;
        let first_entry = first_register + u32::from(registers) * seats;
        Geometry {
            live,
            alloc,
            reserve,
            high,
            low,
            registers,
            board,
            first_mark,
            first_frame,
            first_register,
            first_entry,
            first_word: first_entry + 2 * (alloc / 2),
        }
    }

    /// The words of a space for evacuation.
    pub fn live(&self) -> u32
        ensures { result ≡ self.now.live }
    {
        self.live
    }

    /// The words of a space for allocation.
    pub fn alloc(&self) -> u32
        ensures { result ≡ self.now.alloc }
    {
        self.alloc
    }

    /// The words for allocation that are kept for the high tasks.
    pub fn reserve(&self) -> u32
        ensures { result ≡ self.now.reserve }
    {
        self.reserve
    }

    /// The high tasks. Their seats come first.
    pub fn high(&self) -> u8
        ensures { result ≡ self.now.high }
    {
        self.high
    }

    /// The low tasks. Their seats come after those of the high tasks.
    pub fn low(&self) -> u8
        ensures { result ≡ self.now.low }
    {
        self.low
    }

    /// The high and the low tasks, each with a seat of its number.
    pub fn tasks(&self) -> u8
        ensures { result ≡ tasks self.now }
    {
        self.high + self.low
    }

    /// The registers of a task.
    pub fn registers(&self) -> u8
        ensures { result ≡ self.now.registers }
    {
        self.registers
    }

    /// The shape of the board, the object that register 0 of each task refers to.
    pub fn board(&self) -> Shape
        ensures { result ≡ self.now.board }
    {
        self.board
    }

    /// How many objects there can be at once, each with a number of its own.
    pub fn numbers(&self) -> u32
        ensures { result ≡ numbers self.now }
    {
        self.live / 2 + self.alloc
    }

    /// The words of the row.
    pub fn words(&self) -> u32
        ensures { result ≡ row_length self.now }
    {
        self.first_word + 2 * (self.live + self.alloc)
    }
}
