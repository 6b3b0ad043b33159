//! The steps of a sketch in a list, each with the sketch before it, and the law that these are enough. It takes no memory.
//!
//! Articles are those of the FIDE Laws of Chess, in force from 1 January 2023.
#![tactic(auto)]

mod laws;
mod steps;

pub use laws::listed_steps_are_enough;
pub use steps::Victim;
