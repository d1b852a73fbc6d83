//! A script: statements whose blocks nest.

ghost use Rattle.std.specs.Prelude.{◌≡◌, ◌<◌, length, MatchResult};
ghost use Rattle.hk_script.specs.declared.error.ScriptError.TheVariants.{Memory};
ghost use Rattle.hk_script.specs.Limits.{widest};
ghost use Rattle.hk_script.specs.Blocks.{IsScript};

use crate::error::ScriptError;
use crate::linking::{Link, links};
use crate::statement::Statement;
use std::alloc::Global;
use std::marker::Model;

/// A script: 1 to [`MAX_STATEMENTS`](crate::MAX_STATEMENTS) statements, in the order of the lines, whose blocks
/// nest. Contracts see it as the list of its statements.
#[derive(Debug, Drop)]
pub struct Script {
    statements: Vec<Statement>,
    links: Vec<Link>,
}

impl Model for Script {
    ghost use Rattle.std.specs.Prelude.{List};
    ghost use Rattle.hk_script.specs.declared.statement.Statement.{Statement};

    ghost Value = { List Statement };

    ghost use Rattle.std.specs.Prelude.{◌≡◌};
    ghost use Rattle.hk_script.specs.Limits.{widest};
    ghost use Rattle.hk_script.specs.Blocks.{IsScript};
    ghost use Rattle.hk_script.specs.Links.{links_of};

    ghost view = { λ script. script.statements.items };

    ghost invariant = { λ script. IsScript widest script.statements.items × (script.links.items ≡ links_of script.statements.items) };
}

impl Script {
    ghost use Rattle.hk_script.specs.Walks.{link_at};

    /// The script of these statements.
    pub(crate) fn new(alloc: Global, statements: Vec<Statement>) -> Result<Script, ScriptError>
        requires { IsScript widest statements.items }
        ensures { MatchResult result (λ script. script ≡ statements.items) (λ e. e ≡ Memory) }
    {
        let links = links(alloc, &statements)?;
        Ok(Script { statements, links })
    }

    /// The link of a statement.
    pub(crate) fn link(&self, place: usize) -> Link
        requires { place < length self.now }
        ensures { result ≡ link_at self.now place }
    {
        self.links[place]
    }

    /// The statements, in the order of the lines.
    pub fn statements(&self) -> &[Statement]
        ensures statements { result.now ≡ self.now }
        ensures script { IsScript widest self.now }
    {
        &self.statements
    }
}
