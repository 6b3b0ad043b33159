//! A walk over the steps of a sketch: each of them in turn, with the sketch before it. It takes no memory.
//!
//! Articles are those of the FIDE Laws of Chess, in force from 1 January 2023.
#![tactic(auto)]

mod before;
mod cursors;
mod goings;
mod listed;
mod places;
mod shorts;
mod steps_back;
mod walking;
mod ways;

pub use listed::{Earlier, Listed};
pub use sketch_list::Victim;
pub use sketch_steps::has_low_places;
pub use steps_back::{StepsBack, can_step_back};
