//! What became of each man of a game, by his home: over which squares he went as a pawn, whom he took, where he stands, and where a
//! pawn took him. Everything here holds of every game. It takes no memory.
//!
//! Articles are those of the FIDE Laws of Chess, in force from 1 January 2023.
#![tactic(auto)]

mod deeds;
mod fates;

pub use deeds::{pawns_go_ways, pawns_strike};
pub use fates::{men_fall_to_pawns, men_last, pawns_pass_frozen_men, pawns_pass_walls};
