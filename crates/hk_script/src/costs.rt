//! What a script can cost: the ticks and the words of its dearest way.

ghost use Rattle.std.specs.Prelude.{◌≡◌, ◌+◌, ◌<◌, ◌≤◌, [], ◌∷◌, length, min, MatchOption};
ghost use Rattle.hk_script.specs.Cost.{ticks_of, words_of, weight_of, in_front, ahead, told, greatest_ticks, greatest_words, largest_of};
ghost use Rattle.hk_script.specs.declared.costs.TheConstants.{LIMIT};

use crate::beyond::Beyonds;
use crate::script::Script;
use crate::statement::Statement;
use hk_words::Call;

/// The greatest cost that is told: 2^24.
pub const MAX_COST: u64 = 16_777_216;

/// The ticks of a statement: a call on the heap takes those of its places, and a `repeat` those of one test.
fn ticks(statement: &Statement) -> u64
    ensures value { result ≡ ticks_of statement.now }
    ensures small { result ≤ 65535 }
{
    match *statement {
        Statement::Work { ticks } => u64::from(ticks),
        Statement::Set { .. }
        | Statement::Copy { .. }
        | Statement::Add { .. }
        | Statement::Sub { .. }
        | Statement::Job { .. }
        | Statement::Out { .. }
        | Statement::If { .. }
        | Statement::Repeat { .. } => 1,
        Statement::Get { reg, field, .. } => u64::from(Call::Get { reg, field }.places()),
        Statement::Put { reg, field, .. } => {
            let value = 0;
            u64::from(Call::Put { reg, field, value }.places())
        }
        Statement::Load { dest, reg, field } => {
            u64::from(Call::Load { dest, reg, field }.places())
        }
        Statement::Store { reg, field, from } => {
            u64::from(Call::Store { reg, field, from }.places())
        }
        Statement::Move { dest, from } => u64::from(Call::Move { dest, from }.places()),
        Statement::Clear { dest } => u64::from(Call::Clear { dest }.places()),
        Statement::New { dest, shape } => u64::from(Call::New { dest, shape }.places()),
        Statement::Else | Statement::End => 0,
    }
}

/// The words that a statement allocates.
fn words_made(statement: &Statement) -> u32
    ensures value { result ≡ words_of statement.now }
    ensures small { result ≤ 65535 }
{
    match statement {
        Statement::New { dest: _, shape } => shape.words(),
        _ => 0,
    }
}

/// What is summed over a script.
#[derive(Clone, Copy)]
enum Measure {
    Ticks,
    Words,
}

/// What a statement takes.
fn weight(measure: Measure, statement: &Statement) -> u64
    ensures value { result ≡ weight_of measure statement.now }
    ensures small { result ≤ 65535 }
{
    match measure {
        Measure::Ticks => ticks(statement),
        Measure::Words => u64::from(words_made(statement)),
    }
}

/// One more than the greatest cost that is told stands for every greater one.
const LIMIT: u64 = MAX_COST + 1;

/// The sums from a place on, each up to [`LIMIT`].
#[derive(Drop)]
struct Sums {
    here: u64,
    blocks: Beyonds,
    ghost small: { here ≤ LIMIT },
}

impl Sums {
    ghost use Rattle.hk_script.specs.Sums.{seen, at_most_limit, room_of};

    /// Puts one statement more in front.
    fn put_in_front(&mut self, weight: u64, statement: &Statement)
        requires small { weight ≤ 65535 }
        requires room { length self.old.blocks ≤ room_of statement.now }
        ensures { seen self.new ≡ at_most_limit (in_front weight statement.now (seen self.old)) }
    {
        let here = self.here;
        let sum = match statement {
            Statement::If { .. } => {
                let beyond = self.blocks.pop();
                weight
                    .saturating_add(here.max(beyond.other))
                    .saturating_add(beyond.after)
            }
            Statement::Repeat { count } => {
                let beyond = self.blocks.pop();
                (u64::from(*count) * (weight + here) + weight).saturating_add(beyond.after)
            }
            Statement::Else => {
                let beyond = self.blocks.pop();
                self.blocks.push(here, beyond.after);
                0
            }
            Statement::End => {
                self.blocks.push(0, here);
                0
            }
            _ => weight + here,
        };
        self.here = sum.min(LIMIT);
    }
}

/// The greatest sum of a way through a script, up to [`LIMIT`].
fn greatest(script: &Script, measure: Measure) -> u64
    ensures { result ≡ min (ahead (weight_of measure) script.now).here LIMIT }
{
    let statements = script.statements();
    let mut sums = Sums {
        here: 0,
        blocks: Beyonds::new(),
    };
    let mut place = statements.len();
    while place > 0 {
        place -= 1;
        let statement = &statements[place];
        sums.put_in_front(weight(measure, statement), statement);
    }
    sums.here
}

/// A sum, where it is at most [`MAX_COST`].
fn told(sum: u64) -> Option<u64>
    ensures { result ≡ told sum }
{
    (sum <= MAX_COST).then_some(sum)
}

/// The greatest number of ticks that a job of the script takes; None exactly where it is above [`MAX_COST`]. An
/// `if` takes one tick and the greater of its parts; a `repeat` takes its block so many times and one test more.
#[tactic(auto, unfolding(crate::specs::Cost::greatest_ticks))]
pub fn cost(script: &Script) -> Option<u64>
    ensures { result ≡ told (greatest_ticks script.now) }
{
    told(greatest(script, Measure::Ticks))
}

/// The greatest number of words that a job of the script allocates; None exactly where it is above [`MAX_COST`].
#[tactic(auto, unfolding(crate::specs::Cost::greatest_words))]
pub fn words(script: &Script) -> Option<u64>
    ensures { result ≡ told (greatest_words script.now) }
{
    told(greatest(script, Measure::Words))
}

/// The greatest size in words of an object that the script makes, 0 where it makes none.
pub fn largest(script: &Script) -> u32
    ensures { result ≡ largest_of script.now }
{
    let mut largest = 0;
    for statement in script.statements() {
        largest = words_made(statement).max(largest);
    }
    largest
}
