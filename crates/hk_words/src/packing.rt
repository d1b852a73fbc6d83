ghost use Rattle.std.specs.Prelude.{◌≡◌, ◌≢◌, ℕ, ◌+◌, ◌-◌, ◌*◌, ◌/◌, ◌%◌, ◌^◌, ◌<◌, ◌≤◌, ◌↔◌};
ghost use Rattle.hk_words.specs.Layout.{field_of, number_bits, refs_bits, nums_bits, accessors_bits, place_bits, blackened_bits, version_bits, words_bits, objects_bits, cycle_bits};
ghost use Rattle.hk_words.specs.Layout.{NamesObject, IsReference, pack_reference, reference_number, reference_refs, reference_nums};
ghost use Rattle.hk_words.specs.Layout.{IsHeader, pack_header, header_accessors, header_place, header_version, header_moved};
ghost use Rattle.hk_words.specs.Layout.{IsFrame, pack_frame, frame_accessors, frame_cycle, frame_version, frame_blackened};
ghost use Rattle.hk_words.specs.Layout.{IsW0, pack_w0, w0_words, w0_objects, w0_cycle};
ghost use Rattle.hk_words.specs.Layout.{entering, leaving, raise_by};

use crate::Shape;

/// The bits of a reference for one more than the object's number, from the lowest on.
const NUMBER_BITS: u32 = 20;

/// The bits of a reference for the number of reference fields.
const REFS_BITS: u32 = 8;

/// The bits of a reference for the number of number fields.
const NUMS_BITS: u32 = 8;

/// The bits of a header or a frame word for its accessors, from the lowest on. The version has the highest bits.
const ACCESSORS_BITS: u32 = 6;

/// The bits of a header for the place.
const PLACE_BITS: u32 = 22;

/// The bits of a frame word for the cycle in which the frame was last blackened.
const BLACKENED_BITS: u32 = 22;

/// The bits of W0 for the words used, from the lowest on. The cycle has the highest bits.
const WORDS_BITS: u32 = 24;

/// The bits of W0 for the objects made.
const OBJECTS_BITS: u32 = 20;

/// What a call adds to a header or a frame word as it enters: one accessor and one version.
pub const ENTER: u64 = (1 << (ACCESSORS_BITS + PLACE_BITS)) + 1;

/// What a call takes from a header or a frame word as it leaves: one accessor.
pub const LEAVE: u64 = 1;

/// The field of so many bits above so many lower bits.
const fn field(word: u64, below: u32, width: u32) -> u64
    requires below { below < 64 }
    requires width { width < 64 }
    ensures { result ≡ field_of below width word }
{
    (word >> below) % (1 << width)
}

/// The reference to the object of this number and shape. Null is the word 0.
pub fn pack_reference(number: u32, shape: Shape) -> u64
    requires number { number + 1 < 2 ^ number_bits }
    ensures { result ≡ pack_reference number shape.refs shape.nums }
{
    (u64::from(number) + 1)
        | u64::from(shape.refs()) << NUMBER_BITS
        | u64::from(shape.nums()) << (NUMBER_BITS + REFS_BITS)
}

/// The number of the object that a reference names.
pub fn reference_number(word: u64) -> u32
    requires { NamesObject word }
    ensures { result ≡ reference_number word }
{
    field(word, 0, NUMBER_BITS) as u32 - 1
}

/// The reference fields of the object that a reference names.
pub fn reference_refs(word: u64) -> u8
    ensures { result ≡ reference_refs word }
{
    field(word, NUMBER_BITS, REFS_BITS) as u8
}

/// The number fields of the object that a reference names.
pub fn reference_nums(word: u64) -> u8
    ensures { result ≡ reference_nums word }
{
    field(word, NUMBER_BITS + REFS_BITS, NUMS_BITS) as u8
}

/// The header of an object: how many calls are inside it, the place where it is, and how often it was entered.
pub fn pack_header(accessors: u8, place: u32, version: u64) -> u64
    requires accessors { accessors < 2 ^ accessors_bits }
    requires place { place < 2 ^ place_bits }
    requires version { version < 2 ^ version_bits }
    ensures { result ≡ pack_header accessors place version }
{
    u64::from(accessors)
        | u64::from(place) << ACCESSORS_BITS
        | version << (ACCESSORS_BITS + PLACE_BITS)
}

/// How many calls are inside the object.
pub fn header_accessors(word: u64) -> u8
    ensures { result ≡ header_accessors word }
{
    field(word, 0, ACCESSORS_BITS) as u8
}

/// The place of the object's first word, 0 where it has none.
pub fn header_place(word: u64) -> u32
    ensures { result ≡ header_place word }
{
    field(word, ACCESSORS_BITS, PLACE_BITS) as u32
}

/// How often the object was entered.
pub fn header_version(word: u64) -> u64
    ensures { result ≡ header_version word }
{
    word >> (ACCESSORS_BITS + PLACE_BITS)
}

/// The header with another place.
pub fn header_moved(word: u64, place: u32) -> u64
    requires { place < 2 ^ place_bits }
    ensures { result ≡ header_moved word place }
{
    pack_header(header_accessors(word), place, header_version(word))
}

/// The word of a task's frame: how many calls are inside it, the cycle in which it was last blackened, and how
/// often it was entered.
pub fn pack_frame(accessors: u8, cycle: u32, version: u64) -> u64
    requires accessors { accessors < 2 ^ accessors_bits }
    requires cycle { cycle < 2 ^ blackened_bits }
    requires version { version < 2 ^ version_bits }
    ensures { result ≡ pack_frame accessors cycle version }
{
    u64::from(accessors)
        | u64::from(cycle) << ACCESSORS_BITS
        | version << (ACCESSORS_BITS + BLACKENED_BITS)
}

/// How many calls are inside the frame.
pub fn frame_accessors(word: u64) -> u8
    ensures { result ≡ frame_accessors word }
{
    field(word, 0, ACCESSORS_BITS) as u8
}

/// The cycle in which the frame was last blackened, 0 where it never was.
pub fn frame_cycle(word: u64) -> u32
    ensures { result ≡ frame_cycle word }
{
    field(word, ACCESSORS_BITS, BLACKENED_BITS) as u32
}

/// How often the frame was entered.
pub fn frame_version(word: u64) -> u64
    ensures { result ≡ frame_version word }
{
    word >> (ACCESSORS_BITS + BLACKENED_BITS)
}

/// The frame word with another cycle.
pub fn frame_blackened(word: u64, cycle: u32) -> u64
    requires { cycle < 2 ^ blackened_bits }
    ensures { result ≡ frame_blackened word cycle }
{
    pack_frame(frame_accessors(word), cycle, frame_version(word))
}

/// W0: the words used for allocation in this cycle, the objects made in it, and its number.
pub fn pack_w0(words: u32, objects: u32, cycle: u32) -> u64
    requires words { words < 2 ^ words_bits }
    requires objects { objects < 2 ^ objects_bits }
    requires cycle { cycle < 2 ^ cycle_bits }
    ensures { result ≡ pack_w0 words objects cycle }
{
    u64::from(words)
        | u64::from(objects) << WORDS_BITS
        | u64::from(cycle) << (WORDS_BITS + OBJECTS_BITS)
}

/// The words used for allocation in this cycle.
pub fn w0_words(word: u64) -> u32
    ensures { result ≡ w0_words word }
{
    field(word, 0, WORDS_BITS) as u32
}

/// The objects made in this cycle.
pub fn w0_objects(word: u64) -> u32
    ensures { result ≡ w0_objects word }
{
    field(word, WORDS_BITS, OBJECTS_BITS) as u32
}

/// The number of the cycle.
pub fn w0_cycle(word: u64) -> u32
    ensures { result ≡ w0_cycle word }
{
    (word >> (WORDS_BITS + OBJECTS_BITS)) as u32
}

/// What making an object of so many words adds to W0: the words, and one object.
pub fn raise_by(words: u32) -> u64
    ensures { result ≡ raise_by words }
{
    u64::from(words) + (1 << WORDS_BITS)
}

/// What holds of references, whatever their parts: the parts of a packed reference are what it was packed from, the
/// parts of a reference make it up again, and no reference is null.
pub fn reference_laws()
    ensures unpacks { (number refs nums : ℕ) → number + 1 < 2 ^ number_bits → refs < 2 ^ refs_bits → nums < 2 ^ nums_bits
        → IsReference (pack_reference number refs nums) number refs nums }
    ensures names { (number refs nums : ℕ) → number + 1 < 2 ^ number_bits → NamesObject (pack_reference number refs nums) }
    ensures repacks { (word : ℕ) → NamesObject word → word < 2 ^ (number_bits + refs_bits + nums_bits)
        → pack_reference (reference_number word) (reference_refs word) (reference_nums word) ≡ word }
    ensures fits { (number refs nums : ℕ) → number + 1 < 2 ^ number_bits → refs < 2 ^ refs_bits → nums < 2 ^ nums_bits
        → pack_reference number refs nums < 2 ^ (number_bits + refs_bits + nums_bits) }
    ensures equal { (word other : ℕ) → NamesObject word → NamesObject other
        → word < 2 ^ (number_bits + refs_bits + nums_bits) → other < 2 ^ (number_bits + refs_bits + nums_bits)
        → (word ≡ other) ↔ IsReference word (reference_number other) (reference_refs other) (reference_nums other) }
{}

/// What holds of headers, whatever their parts. Entering and leaving change their own parts and nothing else.
pub fn header_laws()
    ensures entering { ENTER ≡ entering }
    ensures leaving { LEAVE ≡ leaving }
    ensures unpacks { (accessors place version : ℕ) → accessors < 2 ^ accessors_bits → place < 2 ^ place_bits
        → IsHeader (pack_header accessors place version) accessors place version }
    ensures repacks { (word : ℕ) → pack_header (header_accessors word) (header_place word) (header_version word) ≡ word }
    ensures enters { (word : ℕ) → header_accessors word + 1 < 2 ^ accessors_bits
        → IsHeader (word + entering) (header_accessors word + 1) (header_place word) (header_version word + 1) }
    ensures leaves { (word : ℕ) → 0 < header_accessors word
        → IsHeader (word - leaving) (header_accessors word - 1) (header_place word) (header_version word) }
    ensures moves { (word place : ℕ) → place < 2 ^ place_bits
        → IsHeader (header_moved word place) (header_accessors word) place (header_version word) }
    ensures equal { (word other : ℕ)
        → (word ≡ other) ↔ IsHeader word (header_accessors other) (header_place other) (header_version other) }

    // A word has 64 bits exactly where its last field fits.
    ensures fits { (word : ℕ) → (word < 2 ^ 64) ↔ (header_version word < 2 ^ version_bits) }
    ensures in_range { (word : ℕ) → (header_accessors word < 2 ^ accessors_bits) × (header_place word < 2 ^ place_bits) }
{}

/// What holds of frame words, whatever their parts. Entering and leaving change their own parts and nothing else.
pub fn frame_laws()
    ensures unpacks { (accessors cycle version : ℕ) → accessors < 2 ^ accessors_bits → cycle < 2 ^ blackened_bits
        → IsFrame (pack_frame accessors cycle version) accessors cycle version }
    ensures repacks { (word : ℕ) → pack_frame (frame_accessors word) (frame_cycle word) (frame_version word) ≡ word }
    ensures enters { (word : ℕ) → frame_accessors word + 1 < 2 ^ accessors_bits
        → IsFrame (word + entering) (frame_accessors word + 1) (frame_cycle word) (frame_version word + 1) }
    ensures leaves { (word : ℕ) → 0 < frame_accessors word
        → IsFrame (word - leaving) (frame_accessors word - 1) (frame_cycle word) (frame_version word) }
    ensures blackens { (word cycle : ℕ) → cycle < 2 ^ blackened_bits
        → IsFrame (frame_blackened word cycle) (frame_accessors word) cycle (frame_version word) }
    ensures equal { (word other : ℕ)
        → (word ≡ other) ↔ IsFrame word (frame_accessors other) (frame_cycle other) (frame_version other) }

    // A word has 64 bits exactly where its last field fits.
    ensures fits { (word : ℕ) → (word < 2 ^ 64) ↔ (frame_version word < 2 ^ version_bits) }
    ensures in_range { (word : ℕ) → (frame_accessors word < 2 ^ accessors_bits) × (frame_cycle word < 2 ^ blackened_bits) }
{}

/// What holds of W0, whatever its parts.
pub fn w0_laws()
    ensures unpacks { (words objects cycle : ℕ) → words < 2 ^ words_bits → objects < 2 ^ objects_bits
        → IsW0 (pack_w0 words objects cycle) words objects cycle }
    ensures repacks { (word : ℕ) → pack_w0 (w0_words word) (w0_objects word) (w0_cycle word) ≡ word }
    ensures raises { (word words : ℕ) → w0_words word + words < 2 ^ words_bits → w0_objects word + 1 < 2 ^ objects_bits
        → IsW0 (word + raise_by words) (w0_words word + words) (w0_objects word + 1) (w0_cycle word) }
    ensures equal { (word other : ℕ)
        → (word ≡ other) ↔ IsW0 word (w0_words other) (w0_objects other) (w0_cycle other) }

    // A word has 64 bits exactly where its last field fits.
    ensures fits { (word : ℕ) → (word < 2 ^ 64) ↔ (w0_cycle word < 2 ^ cycle_bits) }
    ensures in_range { (word : ℕ) → (w0_words word < 2 ^ words_bits) × (w0_objects word < 2 ^ objects_bits) }
{}
