//! The script language: what a task's job does, tick by tick. A script is parsed from a text and printed again,
//! its cost in ticks and in words is known before it runs, and a walk of it goes on statement by statement.
#![tactic(auto)]

mod beyond;
mod blocks;
mod costs;
mod error;
mod laws;
mod lex;
mod limits;
mod linking;
mod parsing;
mod printing;
mod progress;
mod reading;
mod script;
mod statement;
mod walk;

pub use costs::{MAX_COST, cost, largest, words};
pub use error::ScriptError;
pub use laws::{
    costs_of_blocks, needs_fit, one_script, one_tree, printed_again, walks_fall, walks_fit,
    walks_of_blocks, walks_within_cost, wider_limits,
};
pub use parsing::{parse, parse_in};
pub use printing::print;
pub use script::Script;
pub use statement::{MAX_COUNT, MAX_DEPTH, MAX_STATEMENTS, Statement, Test, VARIABLES};
pub use walk::{Need, Walk};

#[cfg(test)]
mod tests;
