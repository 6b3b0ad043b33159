//! The proof by a sketch that no game leads to a position, in plain words, for readers who know chess.
//!
//! Articles are those of the FIDE Laws of Chess, in force from 1 January 2023.
#![tactic(auto)]

mod bases;
mod children;
mod dues;
mod ends;
mod foreigners;
mod leaves;
mod levels;
mod marks;
mod opening;
mod telling;
mod whole;

pub use leaves::Leaf;
pub use whole::push_sketch;
