//! A line of a log from its words.
ghost use Rattle.std.specs.Prelude.{◌≡◌, ◌≤◌, ◌<◌, ◌^◌, IfSome, map};
ghost use Rattle.hk_replay.specs.Reading.{below, register_of, target_of, field_of, size_of, call_of_two, call_of_three, call_of_four, new_of, reason_of, begin_of, fault_of, plain_answer_of, answer_of, two_words, three_words, end_of, four_words, five_words, six_words, seven_words, line_of, heading_by, heading_of, IsOfHeading};
ghost use Rattle.hk_replay.specs.Shapes.{any_shape_of, shape_of};

use crate::lex::is;
use crate::log_line::{Answer, Ending, Heading, LogLine, Reason};
use hk_io::number;
use hk_words::{Call, Geometry, REGISTERS, Shape, USUAL_FIELDS};

/// A number below a limit.
#[tactic(auto, unfolding(crate::specs::Reading::below))]
fn below(limit: u16, word: &[u8]) -> Option<u16>
    ensures value { result ≡ below limit word.now }
    ensures small { IfSome result (λ n. n < limit) }
{
    match number(word) {
        Some(value) if value < u64::from(limit) => Some(value as u16),
        _ => None,
    }
}

/// A seat of so many tasks.
fn seat(tasks: u8, word: &[u8]) -> Option<u8>
    ensures { result ≡ below tasks word.now }
{
    Some(below(u16::from(tasks), word)? as u8)
}

/// A register that is read.
fn register(word: &[u8]) -> Option<u8>
    ensures { result ≡ register_of word.now }
{
    seat(REGISTERS, word)
}

/// A register that is written: any but register 0.
#[tactic(auto, unfolding(crate::specs::Reading::target_of))]
fn target(word: &[u8]) -> Option<u8>
    ensures { result ≡ target_of word.now }
{
    let reg = register(word)?;
    if reg == 0 {
        return None;
    }
    Some(reg)
}

/// The number of a field.
fn field(word: &[u8]) -> Option<u8>
    ensures { result ≡ field_of word.now }
{
    seat(USUAL_FIELDS, word)
}

/// How many fields of a kind an object has.
fn size(word: &[u8]) -> Option<u8>
    ensures { result ≡ size_of word.now }
{
    Some(below(256, word)? as u8)
}

/// The shape of so many fields, where there is one.
fn any_shape(refs: u8, nums: u8) -> Option<Shape>
    ensures { result ≡ any_shape_of refs nums }
{
    Shape::new(refs, nums)
}

/// The same with the usual number of fields at most.
#[tactic(auto, unfolding(crate::specs::Shapes::shape_of))]
fn shape(refs: u8, nums: u8) -> Option<Shape>
    ensures { result ≡ shape_of refs nums }
{
    if u16::from(refs) + u16::from(nums) > u16::from(USUAL_FIELDS) {
        return None;
    }
    any_shape(refs, nums)
}

/// The call of two words.
#[tactic(auto, unfolding(crate::specs::Reading::call_of_two))]
fn call_of_two(name: &[u8], a: &[u8]) -> Option<Call>
    ensures { result ≡ call_of_two name.now a.now }
{
    if is(name, "clear") {
        Some(Call::Clear { dest: target(a)? })
    } else {
        None
    }
}

/// The call of three words.
#[tactic(auto, unfolding(crate::specs::Reading::call_of_three))]
fn call_of_three(name: &[u8], a: &[u8], b: &[u8]) -> Option<Call>
    ensures { result ≡ call_of_three name.now a.now b.now }
{
    if is(name, "get") {
        Some(Call::Get {
            reg: register(a)?,
            field: field(b)?,
        })
    } else if is(name, "move") {
        Some(Call::Move {
            dest: target(a)?,
            from: register(b)?,
        })
    } else {
        None
    }
}

/// A new object.
#[tactic(auto, unfolding(crate::specs::Reading::new_of))]
fn new_object(a: &[u8], b: &[u8], c: &[u8]) -> Option<Call>
    ensures { result ≡ new_of a.now b.now c.now }
{
    let dest = target(a)?;
    let refs = size(b)?;
    let nums = size(c)?;
    let shape = shape(refs, nums)?;
    Some(Call::New { dest, shape })
}

/// The call of four words.
#[tactic(auto, unfolding(crate::specs::Reading::call_of_four))]
fn call_of_four(name: &[u8], a: &[u8], b: &[u8], c: &[u8]) -> Option<Call>
    ensures { result ≡ call_of_four name.now a.now b.now c.now }
{
    if is(name, "put") {
        Some(Call::Put {
            reg: register(a)?,
            field: field(b)?,
            value: number(c)?,
        })
    } else if is(name, "load") {
        Some(Call::Load {
            dest: target(a)?,
            reg: register(b)?,
            field: field(c)?,
        })
    } else if is(name, "store") {
        Some(Call::Store {
            reg: register(a)?,
            field: field(b)?,
            from: register(c)?,
        })
    } else if is(name, "new") {
        new_object(a, b, c)
    } else {
        None
    }
}

/// Why a call was refused.
#[tactic(auto, unfolding(crate::specs::Reading::reason_of))]
fn reason(word: &[u8]) -> Option<Reason>
    ensures { result ≡ reason_of word.now }
{
    if is(word, "nil") {
        Some(Reason::Nil)
    } else if is(word, "field") {
        Some(Reason::Field)
    } else {
        None
    }
}

/// A call that a seat began.
#[tactic(auto, unfolding(crate::specs::Reading::begin_of))]
fn begin(tasks: u8, word: &[u8], call: Option<Call>) -> Option<LogLine>
    ensures { result ≡ begin_of tasks word.now call }
{
    Some(LogLine::Begin {
        seat: seat(tasks, word)?,
        call: call?,
    })
}

/// A call of a seat that was refused.
#[tactic(auto, unfolding(crate::specs::Reading::fault_of))]
fn fault(tasks: u8, word: &[u8], call: Option<Call>, why: &[u8]) -> Option<LogLine>
    ensures { result ≡ fault_of tasks word.now call why.now }
{
    Some(LogLine::Fault {
        seat: seat(tasks, word)?,
        call: call?,
        reason: reason(why)?,
    })
}

/// What an event of the collector did: one word.
#[tactic(auto, unfolding(crate::specs::Reading::plain_answer_of))]
fn plain_answer(name: &[u8]) -> Option<Answer>
    ensures { result ≡ plain_answer_of name.now }
{
    if is(name, "useful") {
        Some(Answer::Useful)
    } else if is(name, "flip") {
        Some(Answer::Flip)
    } else if is(name, "worn") {
        Some(Answer::Worn)
    } else {
        None
    }
}

/// The same: a word with a number.
#[tactic(auto, unfolding(crate::specs::Reading::answer_of))]
fn answer(tasks: u8, name: &[u8], a: &[u8]) -> Option<Answer>
    ensures { result ≡ answer_of tasks name.now a.now }
{
    if is(name, "lost") {
        Some(Answer::Lost(number(a)?))
    } else if is(name, "frame") {
        Some(Answer::Frame(seat(tasks, a)?))
    } else if is(name, "object") {
        Some(Answer::Object(number(a)?))
    } else if is(name, "unlinked") {
        Some(Answer::Unlinked(number(a)?))
    } else if is(name, "grey") {
        Some(Answer::Grey(number(a)?))
    } else if is(name, "live") {
        Some(Answer::Live(number(a)?))
    } else {
        None
    }
}

/// The line of two words.
#[tactic(auto, unfolding(crate::specs::Reading::two_words))]
fn two_words(tasks: u8, name: &[u8], a: &[u8]) -> Option<LogLine>
    ensures { result ≡ two_words tasks name.now a.now }
{
    if is(name, "step") {
        Some(LogLine::Step {
            seat: seat(tasks, a)?,
        })
    } else if is(name, "gc") {
        Some(LogLine::Collect {
            answer: plain_answer(a)?,
        })
    } else {
        None
    }
}

/// The line of three words.
#[tactic(auto, unfolding(crate::specs::Reading::three_words))]
fn three_words(tasks: u8, name: &[u8], a: &[u8], b: &[u8]) -> Option<LogLine>
    ensures { result ≡ three_words tasks name.now a.now b.now }
{
    if is(name, "end") {
        if !is(b, "unit") {
            return None;
        }
        Some(LogLine::End {
            seat: seat(tasks, a)?,
            ending: Ending::Unit,
        })
    } else if is(name, "gc") {
        Some(LogLine::Collect {
            answer: answer(tasks, a, b)?,
        })
    } else {
        None
    }
}

/// The end of a call that answers a number.
#[tactic(auto, unfolding(crate::specs::Reading::end_of))]
fn end(tasks: u8, a: &[u8], b: &[u8], c: &[u8]) -> Option<LogLine>
    ensures { result ≡ end_of tasks a.now b.now c.now }
{
    if is(b, "num") {
        Some(LogLine::End {
            seat: seat(tasks, a)?,
            ending: Ending::Num(number(c)?),
        })
    } else if is(b, "full") {
        Some(LogLine::End {
            seat: seat(tasks, a)?,
            ending: Ending::Full(number(c)?),
        })
    } else {
        None
    }
}

/// The line of four words.
#[tactic(auto, unfolding(crate::specs::Reading::four_words))]
fn four_words(tasks: u8, name: &[u8], a: &[u8], b: &[u8], c: &[u8]) -> Option<LogLine>
    ensures { result ≡ four_words tasks name.now a.now b.now c.now }
{
    if is(name, "begin") {
        begin(tasks, a, call_of_two(b, c))
    } else if is(name, "end") {
        end(tasks, a, b, c)
    } else {
        None
    }
}

/// The line of five words.
#[tactic(auto, unfolding(crate::specs::Reading::five_words))]
fn five_words(tasks: u8, name: &[u8], a: &[u8], b: &[u8], c: &[u8], d: &[u8]) -> Option<LogLine>
    ensures { result ≡ five_words tasks name.now a.now b.now c.now d.now }
{
    if is(name, "begin") {
        begin(tasks, a, call_of_three(b, c, d))
    } else if is(name, "fault") {
        fault(tasks, a, call_of_two(b, c), d)
    } else {
        None
    }
}

/// The line of six words.
#[tactic(auto, unfolding(crate::specs::Reading::six_words))]
fn six_words(
    tasks: u8,
    name: &[u8],
    a: &[u8],
    b: &[u8],
    c: &[u8],
    d: &[u8],
    e: &[u8],
) -> Option<LogLine>
    ensures { result ≡ six_words tasks name.now a.now b.now c.now d.now e.now }
{
    if is(name, "begin") {
        begin(tasks, a, call_of_four(b, c, d, e))
    } else if is(name, "fault") {
        fault(tasks, a, call_of_three(b, c, d), e)
    } else {
        None
    }
}

/// The line of seven words.
#[tactic(auto, unfolding(crate::specs::Reading::seven_words))]
fn seven_words(
    tasks: u8,
    name: &[u8],
    a: &[u8],
    b: &[u8],
    c: &[u8],
    d: &[u8],
    e: &[u8],
    f: &[u8],
) -> Option<LogLine>
    ensures { result ≡ seven_words tasks name.now a.now b.now c.now d.now e.now f.now }
{
    if is(name, "fault") {
        fault(tasks, a, call_of_four(b, c, d, e), f)
    } else {
        None
    }
}

/// The line of these words, in a log of a heap with so many tasks.
#[tactic(auto, unfolding(crate::specs::Reading::line_of))]
pub fn log_line(tasks: u8, words: &[&[u8]]) -> Option<LogLine>
    ensures { result ≡ line_of tasks (map (λ word. word.now) words.now) }
{
    match words {
        [name, a] => two_words(tasks, name, a),
        [name, a, b] => three_words(tasks, name, a, b),
        [name, a, b, c] => four_words(tasks, name, a, b, c),
        [name, a, b, c, d] => five_words(tasks, name, a, b, c, d),
        [name, a, b, c, d, e] => six_words(tasks, name, a, b, c, d, e),
        [name, a, b, c, d, e, f] => seven_words(tasks, name, a, b, c, d, e, f),
        _ => None,
    }
}

/// A number of 32 bits.
#[tactic(auto, unfolding(crate::specs::Reading::below))]
fn wide(word: &[u8]) -> Option<u32>
    ensures { result ≡ below (2 ^ 32) word.now }
{
    u32::try_from(number(word)?).ok()
}

/// The numbers of a first line, behind its name.
#[tactic(auto, unfolding(crate::specs::Reading::heading_by))]
fn numbers(a: &[u8], b: &[u8], c: &[u8], d: &[u8], e: &[u8], f: &[u8], g: &[u8]) -> Option<Heading>
    ensures { result ≡ heading_by a.now b.now c.now d.now e.now f.now g.now }
{
    Some(Heading {
        live: wide(a)?,
        alloc: wide(b)?,
        reserve: wide(c)?,
        high: size(d)?,
        low: size(e)?,
        refs: size(f)?,
        nums: size(g)?,
    })
}

/// The first line of a log, of these words.
#[tactic(auto, unfolding(crate::specs::Reading::heading_of))]
pub fn heading(words: &[&[u8]]) -> Option<Heading>
    ensures { result ≡ heading_of (map (λ word. word.now) words.now) }
{
    match words {
        [name, a, b, c, d, e, f, g] => {
            if is(name, "heap") {
                numbers(a, b, c, d, e, f, g)
            } else {
                None
            }
        }
        _ => None,
    }
}

/// The geometry of a first line, if its numbers are of one.
#[tactic(auto, unfolding(crate::specs::Reading::sizes_in))]
pub fn geometry(heading: &Heading) -> Option<Geometry>
    ensures { IsOfHeading heading.now result }
{
    Geometry::new(
        heading.live,
        heading.alloc,
        heading.reserve,
        heading.high,
        heading.low,
        heading.refs,
        heading.nums,
    )
    .ok()
}
