//! Lower bounds on the length of every game that leads to a position. It takes no memory.
//!
//! Articles are those of the FIDE Laws of Chess, in force from 1 January 2023.
#![tactic(auto)]

mod checking;
mod choosing;
mod costs;
mod laws;
mod lengths;
mod man_potentials;
mod reading;
mod rows;
mod text_laws;
mod texts;
mod walks;
mod writing;

pub use checking::{LengthRefused, check_length, read_shown_length};
pub use choosing::longest;
pub use costs::move_cost;
pub use laws::{games_are_long, men_need_moves, steps_add_one};
pub use lengths::{best, length_of};
pub use man_potentials::ManPotentials;
pub use rows::costs as man_costs;
pub use text_laws::{one_length_answer, one_length_text_each, shown_lengths_hold};
pub use texts::LengthText;
pub use walks::steps;
pub use writing::write_length;
