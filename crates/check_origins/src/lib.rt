//! Where the last move of a game can have ended, told by the checks on its board. It takes no memory.
//!
//! Articles are those of the FIDE Laws of Chess, in force from 1 January 2023.
#![tactic(auto)]

mod arrivals;
mod near;

pub use arrivals::origins;
