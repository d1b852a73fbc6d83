//! How far a worker has come.

use crate::note::Note;
use hk_script::Walk;

/// The walk of the job under way, what was noted, how many jobs ended, and, where a New found no room, the words that it
/// found used.
#[derive(Drop)]
pub struct Progress {
    pub walk: Walk,
    pub notes: Vec<Note>,
    pub jobs: u64,
    pub full: Option<u64>,
}
