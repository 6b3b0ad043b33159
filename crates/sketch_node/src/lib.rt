//! A node of a sketch's tree: whether the sketch is void, which marks are forced, the cases of a man of whom only that is known that he is
//! no bishop and no pawn, and what is before its steps. It takes no memory.
//!
//! Articles are those of the FIDE Laws of Chess, in force from 1 January 2023.
#![tactic(auto)]

mod cases;
mod laws;
mod marks;
mod steps;
mod voids;

pub use cases::{case_of, first_unknown, known_at};
pub use laws::nodes_refute;
pub use marks::marked;
pub use sketch_account::closes;
pub use steps::before_steps;
pub use voids::is_void;
