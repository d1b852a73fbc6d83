//! The heap's row of words, and the operations of the tasks on it, place by place.
#![tactic(auto)]

mod decide;
mod event;
mod flight;
mod laws;
mod machine;
mod opening;
mod outcome;
mod promise;
mod spot;
mod spotted;
mod starting;
mod stepping;
mod stepping_links;
mod stepping_new;
#[cfg(test)]
mod tests;
mod took;
mod whole;
mod whole_links;
mod whole_new;

pub use event::Event;
pub use flight::{Flight, reference_size, reserved_fits};
pub use hk_model::Memory;
pub use laws::{
    fresh_numbers, inside_an_object, lawful_states, news_without_room, places_in_order,
    steps_of_a_call,
};
pub use machine::Core;
pub use opening::opening_row;
pub use outcome::{Fault, Outcome, Step};
pub use promise::lawful_states_promise;
pub use spot::{Line, Spot, Stage, Work};
pub use starting::{MAX_CALLS, flight_by, refusal_by};
