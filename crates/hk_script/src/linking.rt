//! Where a walk of a script goes on from each statement, so that each of its steps takes the same time.

ghost use Rattle.std.specs.Prelude.{◌≡◌, ◌+◌, ◌<◌, ◌≤◌, [], length, drop, IfOk, IfErr, MatchResult};
ghost use Rattle.hk_script.specs.declared.error.ScriptError.TheVariants.{Memory};
ghost use Rattle.hk_script.specs.Limits.{widest};
ghost use Rattle.hk_script.specs.Blocks.{IsScript};
ghost use Rattle.hk_script.specs.Links.{arounds, links_of, leads, link};
ghost use Rattle.hk_script.specs.Steps.{seen_ways};
ghost use Rattle.hk_script.specs.Sums.{room_of};

use crate::beyond::Beyonds;
use crate::blocks::Blocks;
use crate::error::ScriptError;
use crate::parsing::nest;
use crate::statement::Statement;
use std::alloc::Global;

/// What is around a statement: how many blocks, and the place of the innermost, where it is a `repeat`.
#[derive(Clone, Copy, Debug, PartialEq, Eq)]
pub(crate) struct Around {
    pub(crate) level: u64,
    pub(crate) again: Option<u64>,
}

/// Where a walk goes on from a statement: behind it, and where it skips the part that the statement begins. The
/// level is the number of blocks around the statement.
#[derive(Clone, Copy, Debug, PartialEq, Eq)]
pub(crate) struct Link {
    pub(crate) on: u64,
    pub(crate) past: u64,
    pub(crate) level: u64,
}

/// What is around each statement.
fn around_each(alloc: Global, statements: &[Statement]) -> Result<Vec<Around>, ScriptError>
    requires { IsScript widest statements.now }
    ensures { MatchResult result (λ v. v.items ≡ arounds [] 0 statements.now) (λ e. e ≡ Memory) }
{
    let mut blocks = Blocks::new(alloc);
    let mut all = Vec::new(alloc);
    let mut place: u32 = 0;
    for statement in statements {
        all.push(Around {
            level: blocks.depth() as u64,
            again: blocks.again(),
        })?;
        nest(&mut blocks, place, statement)?;
        place = place.saturating_add(1);
    }
    Ok(all)
}

/// The ways from a place on.
#[derive(Drop)]
pub(crate) struct Places {
    pub(crate) on: u64,
    pub(crate) blocks: Beyonds,
}

/// Puts one statement more in front.
fn put_in_front(places: &mut Places, around: Around, place: u64, statement: &Statement)
    requires { length places.old.blocks ≤ room_of statement.now }
    ensures { seen_ways places.new ≡ leads around place statement.now (seen_ways places.old) }
{
    match statement {
        Statement::If { .. } | Statement::Repeat { .. } => {
            places.blocks.pop();
            places.on = place;
        }
        Statement::Else => {
            let beyond = places.blocks.pop();
            places.blocks.push(places.on, beyond.after);
            places.on = beyond.after;
        }
        Statement::End => {
            places.blocks.push(places.on, places.on);
            places.on = around.again.unwrap_or(places.on);
        }
        _ => places.on = place,
    }
}

/// The link of a statement, where these are the ways behind it.
fn link_from(places: &Places, around: Around, statement: &Statement) -> Link
    ensures { result ≡ link around statement.now (seen_ways places.now) }
{
    let beyond = places.blocks.nearest();
    let past = match statement {
        Statement::Repeat { .. } => beyond.after,
        _ => beyond.other,
    };
    Link {
        on: places.on,
        past,
        level: around.level,
    }
}

/// The links of a script.
pub(crate) fn links(alloc: Global, statements: &[Statement]) -> Result<Vec<Link>, ScriptError>
    requires { IsScript widest statements.now }
    ensures { MatchResult result (λ v. v.items ≡ links_of statements.now) (λ e. e ≡ Memory) }
{
    let arounds = around_each(alloc, statements)?;
    let mut place = statements.len();
    let mut all = vec![in alloc; Link {
        on: 0,
        past: 0,
        level: 0
    }; place]?;
    let mut places = Places {
        on: place as u64,
        blocks: Beyonds::new(),
    };
    while place > 0 {
        place -= 1;
        let statement = &statements[place];
        let around = arounds[place];
        all[place] = link_from(&places, around, statement);
        put_in_front(&mut places, around, place as u64, statement);
    }
    Ok(all)
}
