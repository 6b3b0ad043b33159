//! Figures and sketches as values: of some men, on which squares each of them may have stood at one moment of a game. It takes no memory.
//!
//! Articles are those of the FIDE Laws of Chess, in force from 1 January 2023.
#![tactic(auto)]

mod boards;
mod kinds;
mod men;
mod sets;
mod sketches;

pub use boards::sketch_of;
pub use kinds::KindSet;
pub use men::Figure;
pub use sets::{
    both, either, is_same, is_whole, only_on, only_square, outside, squares_that, with_if,
};
pub use sketches::{Sketch, fixed_squares};
