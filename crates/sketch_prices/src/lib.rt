//! Prices of captures by pawns that close a sketch, or that force marks of its figures: which of those at hand do, and an ascent to others.
//! They are found by a quick account on which nothing rests: whoever uses them shows with the rule what they do. What is kept takes memory.
//!
//! Articles are those of the FIDE Laws of Chess, in force from 1 January 2023.
#![tactic(auto)]

mod ascents;
mod both;
mod desk;
mod kept;

pub use ascents::Target;
pub use desk::{AccountDesk, Basis, Survey};
