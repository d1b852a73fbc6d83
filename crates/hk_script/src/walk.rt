//! The walk of a script: a job's state, statement by statement.

ghost use Rattle.std.specs.Prelude.{◌≡◌, ◌+◌, ◌<◌, ◌↔◌, List, length, IsNone, IsSome, IsSomeAnd};
ghost use Rattle.hk_script.specs.declared.statement.Statement.{Statement};
ghost use Rattle.hk_script.specs.declared.limits.Limits.{Limits};
ghost use Rattle.hk_script.specs.Limits.{widest};
ghost use Rattle.hk_script.specs.Blocks.{IsScript};
ghost use Rattle.hk_script.specs.Walks.{started, need_in, need_of, value, need_of_test, holds, number_of_reply, assigned, after_set, turned, stepped, walk_after, Fits, Answers};
ghost use Rattle.hk_script.specs.Spelling.{IsStatement, IsTest, IsVariable};
ghost use Rattle.hk_script.specs.Levels.{HasLevel};

use crate::linking::Link;
use crate::script::Script;
use crate::statement::{Statement, Test};
use hk_words::{Call, Reply};

/// What the next statement of a walk wants.
#[derive(Clone, Copy, Debug, PartialEq, Eq)]
pub enum Need {
    /// So many ticks.
    Work(u32),
    /// One tick: a statement on variables, or a test of a `repeat` or of an `if` on variables.
    Local,
    /// One tick, and the value is put out.
    Out(u64),
    /// A call on the heap.
    Heap(Call),
    /// A question to the heap, of one tick.
    Ask(Call),
}

/// The state of a job: the job's number, its variables, the place of the next statement, counted from 0, and for each
/// level of blocks the turns that its `repeat` has begun.
#[derive(Clone, Copy, Debug, PartialEq, Eq)]
pub struct Walk {
    pub job: u64,
    pub variables: [u64; 8],
    pub place: u64,
    pub turns: [u16; 16],
}

impl Walk {
    /// The state in which a job begins: every variable is 0, and no turn was begun. It fits every script.
    pub fn start(job: u64) -> Walk
        ensures started { result ≡ started job }
        ensures fits { (limits : Limits) (script : List Statement) → IsScript limits script → Fits script result }
    {
        Walk {
            job,
            variables: [0; 8],
            place: 0,
            turns: [0; 16],
        }
    }

    /// What the next statement wants; None exactly at the end of the script.
    #[tactic(auto, unfolding(crate::specs::Walks::need_of))]
    pub fn next(&self, script: &Script) -> Option<Need>
        requires { Fits script.now self.now }
        ensures need { result ≡ need_of script.now self.now }
        ensures end { IsNone result ↔ (self.now.place ≡ length script.now) }
    {
        let place = self.place as usize;
        let statements = script.statements();
        if place >= statements.len() {
            return None;
        }
        self.need_in(statements[place])
    }

    /// The number of the statement that wants something, counted from 1, each `else` and `end` with the others.
    pub fn statement(&self, script: &Script) -> u32
        requires fits { Fits script.now self.now }
        requires wants { IsSome (need_of script.now self.now) }
        ensures { result ≡ self.now.place + 1 }
    {
        // For the proof alone: a script has few statements, so the place is small.
        let _statements = script.statements();
        self.place as u32 + 1
    }

    /// Goes on after the statement that wanted something, which had this reply: Unit, but a number for a get, and yes
    /// or no for a question.
    pub fn done(&mut self, script: &Script, reply: Reply)
        requires fits { Fits script.now self.old }
        requires answered { IsSomeAnd (need_of script.now self.old) (λ need. Answers need reply) }
        ensures after { self.new ≡ walk_after script.now self.old reply }
        ensures fits { Fits script.now self.new }
    {
        let place = self.place as usize;
        let statement = script.statements()[place];
        let link = script.link(place);
        self.step(link, statement, reply);
    }

    /// The value of a variable.
    fn value(&self, variable: u8) -> u64
        requires { IsVariable variable }
        ensures { result ≡ value variable self.now }
    {
        self.variables[variable as usize]
    }

    /// What this statement wants.
    fn need_in(&self, statement: Statement) -> Option<Need>
        requires { IsStatement widest statement }
        ensures { result ≡ need_in self.now statement }
    {
        Some(match statement {
            Statement::Work { ticks } => Need::Work(u32::from(ticks)),
            Statement::Out { variable } => Need::Out(self.value(variable)),
            Statement::Get {
                variable: _,
                reg,
                field,
            } => Need::Heap(Call::Get { reg, field }),
            Statement::Put {
                reg,
                field,
                variable,
            } => {
                let value = self.value(variable);
                Need::Heap(Call::Put { reg, field, value })
            }
            Statement::Load { dest, reg, field } => Need::Heap(Call::Load { dest, reg, field }),
            Statement::Store { reg, field, from } => Need::Heap(Call::Store { reg, field, from }),
            Statement::Move { dest, from } => Need::Heap(Call::Move { dest, from }),
            Statement::Clear { dest } => Need::Heap(Call::Clear { dest }),
            Statement::New { dest, shape } => Need::Heap(Call::New { dest, shape }),
            Statement::If { test } => test_need(test),
            Statement::Else | Statement::End => return None,
            _ => Need::Local,
        })
    }

    /// Whether a test holds, by the variables or by the heap's reply.
    fn holds(&self, test: Test, reply: Reply) -> bool
        requires { IsTest widest test }
        ensures { result ≡ holds test self.now reply }
    {
        match test {
            Test::Less { left, right } => self.value(left) < self.value(right),
            Test::Equal { left, right } => self.value(left) == self.value(right),
            Test::Null { .. } | Test::Same { .. } => matches!(reply, Reply::Yes),
        }
    }

    /// Sets a variable.
    fn assign(&mut self, variable: u8, value: u64)
        requires { IsVariable variable }
        ensures { self.new ≡ assigned variable value self.old }
    {
        self.variables[variable as usize] = value;
    }

    /// Sets what a statement on variables sets, or a get.
    fn set(&mut self, statement: Statement, reply: Reply)
        requires { IsStatement widest statement }
        ensures { self.new ≡ after_set self.old reply statement }
    {
        match statement {
            Statement::Set { variable, value } => self.assign(variable, value),
            Statement::Copy { variable, other } => self.assign(variable, self.value(other)),
            Statement::Add { variable, other } => {
                let sum = self.value(variable).wrapping_add(self.value(other));
                self.assign(variable, sum);
            }
            Statement::Sub { variable, other } => {
                let difference = self.value(variable).wrapping_sub(self.value(other));
                self.assign(variable, difference);
            }
            Statement::Job { variable } => self.assign(variable, self.job),
            Statement::Get { variable, .. } => self.assign(variable, number_of(reply)),
            _ => {}
        }
    }

    /// A test of a `repeat`: another turn begins, or it is left.
    fn turn(&mut self, link: Link, count: u16)
        requires { link.level < 16 }
        ensures { self.new ≡ turned link count self.old }
    {
        let level = link.level as usize;
        if self.turns[level] < count {
            self.turns[level] += 1;
            self.place = link.on;
        } else {
            self.turns[level] = 0;
            self.place = link.past;
        }
    }

    /// Goes on after this statement.
    fn step(&mut self, link: Link, statement: Statement, reply: Reply)
        requires statement { IsStatement widest statement }
        requires level { HasLevel statement link }
        ensures { self.new ≡ stepped link self.old reply statement }
    {
        match statement {
            Statement::If { test } => {
                self.place = if self.holds(test, reply) {
                    link.on
                } else {
                    link.past
                };
            }
            Statement::Repeat { count } => self.turn(link, count),
            Statement::Else | Statement::End => {}
            _ => {
                self.set(statement, reply);
                self.place = link.on;
            }
        }
    }
}

/// What a test wants.
fn test_need(test: Test) -> Need
    ensures { result ≡ need_of_test test }
{
    match test {
        Test::Null { reg } => Need::Ask(Call::IsNull { reg }),
        Test::Same { left, right } => Need::Ask(Call::Same { a: left, b: right }),
        Test::Less { .. } | Test::Equal { .. } => Need::Local,
    }
}

/// The number of a reply.
fn number_of(reply: Reply) -> u64
    ensures { result ≡ number_of_reply reply }
{
    match reply {
        Reply::Num(number) => number,
        _ => 0,
    }
}
