//! What was read so far of a text.

use crate::blocks::Blocks;
use crate::statement::Statement;

/// The statements, and the open blocks with the lines that they begin in.
#[derive(Drop)]
pub(crate) struct Reading {
    pub(crate) statements: Vec<Statement>,
    pub(crate) blocks: Blocks,
}
