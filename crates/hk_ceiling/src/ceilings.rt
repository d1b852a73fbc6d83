//! Sections by the numbers of their tasks, ceilings, and how long a section may hold a task up.
ghost use Rattle.std.specs.Prelude.{◌≡◌, ℕ, ◌+◌, ◌<◌, ◌≤◌, ◌^◌, List, length, IfSome};
ghost use Rattle.hk_ceiling.specs.Ceilings.{is_inside, inside_at, ceiling, can_block, block};
ghost use Rattle.hk_ceiling.specs.Choice.{is_there};

/// The most sections.
pub const MAX_SECTIONS: usize = 64;

/// A critical section of a task's jobs: they hold a resource in their ticks `start` to `start + len - 1`.
#[derive(Clone, Copy, Debug, PartialEq, Eq)]
pub struct TaskSection {
    pub task: u8,
    pub res: u8,
    pub start: u32,
    pub len: u32,
}

/// Whether a job of this task that has had so many ticks is inside the section.
pub fn is_inside(section: TaskSection, task: u8, done: u64) -> bool
    ensures { result ≡ is_inside section task done }
{
    section.task == task
        && (section.start as u64) < done
        && done < section.start as u64 + section.len as u64
}

/// The place of the section that such a job is inside.
#[tactic(auto, unfolding(crate::specs::Ceilings::inside_below))]
pub fn inside_at(sections: &[TaskSection], task: u8, done: u64) -> Option<usize>
    ensures value { result ≡ inside_at sections.now task done }
    ensures within { IfSome result (λ q. q < length sections.now) }
{
    let mut found = None;
    for (q, section) in sections.iter().enumerate() {
        if is_inside(*section, task, done) {
            found = Some(q);
        }
    }
    found
}

/// The ceiling of the resource of the section at a place: the least task with a section of it.
#[tactic(auto, unfolding(crate::specs::Ceilings::ceiling_below))]
pub fn ceiling(sections: &[TaskSection], place: usize) -> u8
    requires { place < length sections.now }
    ensures { result ≡ ceiling sections.now place }
{
    let own = sections[place];
    let mut least = own.task;
    for section in sections.iter() {
        if section.res == own.res && section.task < least {
            least = section.task;
        }
    }
    least
}

/// How long a later task's section may hold a job of this task up.
#[tactic(auto, unfolding(crate::specs::Ceilings::block_below))]
pub fn block(sections: &[TaskSection], task: u8) -> u32
    ensures { result ≡ block sections.now task }
{
    let mut most = 0;
    for (q, section) in sections.iter().enumerate() {
        if task < section.task
            && ceiling(sections, q) <= task
            && most < section.len.saturating_sub(1)
        {
            most = section.len.saturating_sub(1);
        }
    }
    most
}
