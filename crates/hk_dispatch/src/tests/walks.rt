//! Sessions of sheets that are drawn from a number, each on the smallest heap that is admitted: at every tick the debt, the
//! useful events and the words used are looked at against their bounds, and how near they came to these is kept.
use super::counts::{Counts, most_used};
use super::written::add;
use crate::{Session, Tick, Who};
use hk_admit::{Admitted, Refused, admit};
use hk_sheet::read;
use hk_words::Draws;
use std::alloc::{AllocError, Global};
use std::process::Abort;
use std::test::Fail;

/// The ticks of each sheet.
const TICKS: u64 = 24_000;

/// A bound on the events of an attempt: a frame has 34, an object of eight fields 42.
const ATTEMPT: u64 = 42;

/// The next number that is at least this, and less than so much more.
fn from(draws: &mut Draws, least: u64, more: u64) -> u64 {
    least.saturating_add(draws.below(more.max(1)))
}

/// A script that was drawn, with the most ticks and words that a job takes.
#[derive(Drop)]
struct Drawn {
    script: String,
    cost: u64,
    words: u64,
}

impl Drawn {
    fn new(alloc: Global) -> Drawn {
        Drawn {
            script: String::new(alloc),
            cost: 0,
            words: 0,
        }
    }

    /// Adds lines, with the most ticks and words that they take.
    fn add(
        &mut self,
        lines: Result<String, AllocError>,
        cost: u64,
        words: u64,
    ) -> Result<(), AllocError> {
        self.cost = self.cost.saturating_add(cost);
        self.words = self.words.saturating_add(words);
        add(&mut self.script, lines)
    }

    /// Makes an object, and keeps it in a field of the board or drops it.
    fn make(&mut self, alloc: Global, draws: &mut Draws) -> Result<(), AllocError> {
        let (refs, nums, field) = (draws.below(3), from(draws, 1, 4), draws.below(6));
        let words = refs.saturating_add(nums).saturating_add(1);
        if field < 3 {
            let lines = format!(in alloc; "new r1 {refs} {nums}\nstore r0 {field} r1");
            self.add(lines, 14, words)
        } else {
            let lines = format!(in alloc; "new r1 {refs} {nums}\nclear r1");
            self.add(lines, 8, words)
        }
    }

    /// Makes an object that refers to another, and keeps the two in a field of the board.
    fn make_two(&mut self, alloc: Global, draws: &mut Draws) -> Result<(), AllocError> {
        let (nums, field) = (from(draws, 1, 3), draws.below(3));
        let lines = format!(in alloc;
            "new r2 0 {nums}\nnew r1 1 1\nstore r1 0 r2\nstore r0 {field} r1"
        );
        self.add(lines, 28, nums.saturating_add(4))
    }

    /// Makes objects in a block that is repeated. Each turn has a test, and the last test ends the block.
    fn make_many(&mut self, alloc: Global, draws: &mut Draws) -> Result<(), AllocError> {
        let (turns, nums) = (from(draws, 2, 3), from(draws, 1, 4));
        let lines = format!(in alloc; "repeat {turns}\nnew r3 0 {nums}\nend");
        let cost = turns.saturating_mul(8).saturating_add(1);
        self.add(lines, cost, turns.saturating_mul(nums.saturating_add(1)))
    }

    /// Reads or writes a number of an object that the board refers to, where there is one.
    fn look(&mut self, alloc: Global, draws: &mut Draws) -> Result<(), AllocError> {
        let field = draws.below(3);
        let access = if draws.below(2) == 0 {
            "get v0 r3 0"
        } else {
            "put r3 0 v0"
        };
        let lines = format!(in alloc;
            "load r3 r0 {field}\nif null r3\nset v0 1\nelse\n{access}\nend"
        );
        self.add(lines, 14, 0)
    }

    /// Works, or accesses the board.
    fn work(&mut self, alloc: Global, draws: &mut Draws) -> Result<(), AllocError> {
        let ticks = from(draws, 1, 12);
        match draws.below(3) {
            0 => self.add(format!(in alloc; "put r0 0 v0"), 3, 0),
            1 => self.add(format!(in alloc; "get v1 r0 1\nout v1"), 4, 0),
            _ => self.add(format!(in alloc; "work {ticks}"), ticks, 0),
        }
    }

    /// A script of two to five parts.
    fn draw(alloc: Global, draws: &mut Draws) -> Result<Drawn, AllocError> {
        let mut drawn = Drawn::new(alloc);
        for _ in 0..from(draws, 2, 4) {
            match draws.below(6) {
                0 | 1 => drawn.make(alloc, draws)?,
                2 => drawn.make_two(alloc, draws)?,
                3 => drawn.make_many(alloc, draws)?,
                4 => drawn.look(alloc, draws)?,
                _ => drawn.work(alloc, draws)?,
            }
        }
        Ok(drawn)
    }
}

/// What is drawn of a sheet before the sizes of its heap.
#[derive(Drop)]
struct Plan {
    live: u64,
    rate: u64,
    tasks: String,
}

/// When the jobs of a task arrive: by a step, or in a list. The step or the gaps are at least so long.
fn arrivals(alloc: Global, draws: &mut Draws, gap: u64) -> Result<String, AllocError> {
    let first = draws.below(60);
    if draws.below(4) > 0 {
        let every = from(draws, gap, gap / 4 + 1);
        return format!(in alloc; "first = {first}\nevery = {every}");
    }
    let mut text = format!(in alloc; "arrivals = [{first}")?;
    let mut at = first;
    for _ in 0..200 {
        at = at.saturating_add(from(draws, gap, gap / 2 + 1));
        if at < TICKS {
            text.push_str(format!(in alloc; ", {at}")?.as_str())?;
        }
    }
    text.push_str("]")?;
    Ok(text)
}

impl Plan {
    /// Adds a high task that asks for so many tenths of the ticks, with what it makes the collector owe.
    fn add_high(
        &mut self,
        alloc: Global,
        draws: &mut Draws,
        place: u64,
        tenths: u64,
    ) -> Result<(), AllocError> {
        let drawn = Drawn::draw(alloc, draws)?;
        let (cost, words) = (drawn.cost, drawn.words);
        let events = self.rate.saturating_mul(words).saturating_add(ATTEMPT);
        let load = cost.saturating_add(events).saturating_mul(10);
        let period = load.checked_div(tenths).unwrap_or(load);
        let jitter = if draws.below(3) == 0 {
            draws.below(period / 4 + 1)
        } else {
            0
        };
        let lag = from(draws, 0, jitter.saturating_add(1));
        let arrivals = arrivals(alloc, draws, period)?;
        let script = drawn.script.as_str();
        add(
            &mut self.tasks,
            format!(in alloc;
                "[[high]]\nname = \"h{place}\"\ncost = {cost}\nperiod = {period}\ndeadline = {period}\nwords = {words}\njitter = {jitter}\nlag = {lag}\n{arrivals}\nscript = \"\"\"\n{script}\"\"\""
            ),
        )
    }

    /// Adds a low task.
    fn add_low(&mut self, alloc: Global, draws: &mut Draws, place: u64) -> Result<(), AllocError> {
        let drawn = Drawn::draw(alloc, draws)?;
        let gap = from(draws, 40, 400);
        let arrivals = arrivals(alloc, draws, gap)?;
        let script = drawn.script.as_str();
        add(
            &mut self.tasks,
            format!(in alloc;
                "[[low]]\nname = \"l{place}\"\n{arrivals}\nscript = \"\"\"\n{script}\"\"\""
            ),
        )
    }

    /// One to three high tasks that ask for three to eight tenths of the ticks in all, and up to two low ones.
    fn draw(alloc: Global, draws: &mut Draws) -> Result<Plan, AllocError> {
        let mut plan = Plan {
            live: from(draws, 10, 20).saturating_mul(2),
            rate: from(draws, 10, 8),
            tasks: String::new(alloc),
        };
        let high = from(draws, 1, 3);
        let tenths = from(draws, 3, 6);
        for place in 0..high {
            let part = tenths.checked_div(high).unwrap_or(1);
            plan.add_high(alloc, draws, place, part.max(1))?;
        }
        for place in 0..draws.below(3) {
            plan.add_low(alloc, draws, place)?;
        }
        Ok(plan)
    }

    /// The sheet with so many words for new objects and as the reserve.
    fn sheet(&self, alloc: Global, room: u64, reserve: u64) -> Result<String, AllocError> {
        let (live, rate, tasks) = (self.live, self.rate, self.tasks.as_str());
        format!(in alloc;
            "version = 1\nticks = {TICKS}\nheap = {{ live = {live}, alloc = {room}, reserve = {reserve}, rate = {rate}, board = [3, 2] }}\n{tasks}"
        )
    }

    /// The plan on a small heap that is admitted: with each refusal the heap gets what it lacks. None where the tasks can't be
    /// in time.
    fn admitted(&self, alloc: Global) -> Result<Option<Admitted>, Fail> {
        let (mut room, mut reserve) = (64, 0);
        for _ in 0..12 {
            let text = self.sheet(alloc, room, reserve)?;
            match admit(alloc, read(alloc, text.as_bytes())?) {
                Ok(admitted) => return Ok(Some(admitted)),
                // Each word more is worth `rate` events, and costs 7 to clear and to list.
                Err(Refused::Rate { have, need }) => {
                    let lacks = need.saturating_sub(have);
                    let gains = self.rate.saturating_sub(7);
                    let words = lacks.checked_div(gains).unwrap_or(0);
                    room = room.saturating_add(words / 2 * 2).saturating_add(2);
                }
                Err(Refused::Reserve { have: _, need }) => {
                    reserve = need.checked_div(self.rate).unwrap_or(0).saturating_add(1);
                    room = room.max(reserve.saturating_add(reserve % 2));
                }
                Err(_) => return Ok(None),
            }
        }
        Ok(None)
    }
}

/// How near sessions came to their bounds, in thousandths of these, and what they went through.
#[derive(Clone, Copy, Debug)]
struct Nearness {
    debt: u64,
    useful: u64,
    used: u64,
    /// The sheets that flipped three times or more, the lost attempts of all, and the sheets that ended since more was live
    /// than they declare.
    many_cycles: u64,
    losses: u64,
    over: u64,
}

/// A number in thousandths of its bound.
fn thousandths(number: u64, bound: u64) -> u64 {
    number.saturating_mul(1000).checked_div(bound).unwrap_or(0)
}

impl Nearness {
    /// Takes in the numbers of a session after a tick.
    fn see(&mut self, session: &Session, counts: &Counts, room: u32) {
        let checked = session.by.checked();
        let debt = thousandths(session.by.debt(), checked.debt);
        let useful = thousandths(counts.useful, checked.work);
        let used = thousandths(u64::from(counts.used), u64::from(room));
        self.debt = self.debt.max(debt);
        self.useful = self.useful.max(useful);
        self.used = self.used.max(used);
    }

    /// Runs a session to its end, and looks at each tick.
    fn run(&mut self, rt: &impl Abort, session: &mut Session) {
        let mut counts = Counts::new();
        let room = most_used(&session.by.checked().sheet);
        for tick in 0..TICKS {
            match session.tick() {
                Tick::Ran { who, .. } => {
                    if let Who::Gc(chore) = who {
                        counts.event(chore);
                    }
                }
                Tick::LiveOver(words) => {
                    assert!(rt; words > u64::from(session.by.checked().sheet.heap.live));
                    self.over = self.over.saturating_add(1);
                    return;
                }
                Tick::Over => panic!(rt; "over before the horizon"),
            }
            counts.look(rt, &session.by, room, tick);
            self.see(session, &counts, room);
        }
        assert_eq!(rt; session.tick(), Tick::Over);
        self.losses = self.losses.saturating_add(counts.lost);
        if session.by.flips() >= 3 {
            self.many_cycles = self.many_cycles.saturating_add(1);
        }
    }
}

/// Runs the sessions of so many sheets that are drawn from a number.
fn walk(rt: &impl Abort, alloc: Global, seed: u64, sheets: u64) -> Result<Nearness, Fail> {
    let mut draws = Draws { state: seed };
    let mut near = Nearness {
        debt: 0,
        useful: 0,
        used: 0,
        many_cycles: 0,
        losses: 0,
        over: 0,
    };
    for _ in 0..sheets {
        let plan = Plan::draw(alloc, &mut draws)?;
        if let Some(admitted) = plan.admitted(alloc)? {
            let mut session = Session::open(alloc, admitted)?;
            near.run(rt, &mut session);
        }
    }
    Ok(near)
}

/// Sixty sheets. Three dozen of them and more flip three times or more before the horizon, some end since more was live than
/// they declare, and attempts are lost. The debt comes within a tenth of its bound, the useful events and the words used come
/// within four tenths.
#[test]
fn drawn_sheets(rt: HostRuntime) -> Result<(), Fail> {
    let near = walk(&rt, rt.alloc(), 1, 60)?;
    assert!(rt; near.many_cycles >= 36, "{near:?}");
    assert!(rt; near.over > 0, "{near:?}");
    assert!(rt; near.losses > 0, "{near:?}");
    assert!(rt; near.debt >= 900, "{near:?}");
    assert!(rt; near.useful >= 600, "{near:?}");
    assert!(rt; near.used >= 600, "{near:?}");
    Ok(())
}
