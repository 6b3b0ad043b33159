//! What a ledger says of a position, and when prices show it: suppositions on where men began, what became of them and how many captures
//! pawns made, each refuted if the men cost too much with it. Everything here holds of every game. It takes no memory.
//!
//! Articles are those of the FIDE Laws of Chess, in force from 1 January 2023.
#![tactic(auto)]

mod laws;
mod lines;
mod suppositions;

pub use balance_rule::class_of;
pub use laws::refuted_suppositions_are_false;
pub use lines::{
    captures_add_up, fates_are_known, homes_and_counts_are_known, pieces_have_homes,
    ways_are_listed,
};
pub use suppositions::{Squares, Supposition};
