//! Games that are made from a number, and the retractions of their positions.
//!
//! Articles are those of the FIDE Laws of Chess, in force from 1 January 2023.
#![tactic(auto)]

mod draws;
mod laws;
mod positions;
mod sampling;
mod tallies;

pub use laws::no_move_is_missing;
pub use sampling::{Summary, sample};
