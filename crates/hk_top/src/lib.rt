//! The top call of the program: from its words and its input to what it writes and how it ends.
#![tactic(auto)]

mod laws;
mod lines;
mod refusals;
mod report;
#[cfg(test)]
mod tests;
mod tool;

pub use laws::{admitted_sheets_are_done, headline_holds, one_end_and_one_text};
pub use refusals::put_refused;
pub use report::{Finish, Form, write_analysis, write_run};
pub use tool::run_tool;
