//! The balance of captures of a sketch: prices show that no game has a moment that the sketch fits, or that a figure was never promoted or
//! never captured. With the ways back of sketches it refutes queries. Everything here holds of every game. It takes no memory.
//!
//! Articles are those of the FIDE Laws of Chess, in force from 1 January 2023.
#![tactic(auto)]

mod laws;

pub use laws::{
    accounts_are_sound, accounts_hold, frozen_figures_stay, refuted_sketches_fit_no_game,
    rooms_are_regions,
};
