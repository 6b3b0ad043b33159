//! Sketches of a game's past: on which squares some men may have stood, at each moment that a position can go back to. Everything here
//! holds of every game. It takes no memory.
//!
//! Articles are those of the FIDE Laws of Chess, in force from 1 January 2023.
#![tactic(auto)]

mod laws;

pub use laws::{closed_sketches_go_back, sketches_fit, sketches_misfit, steps_are_listed};
