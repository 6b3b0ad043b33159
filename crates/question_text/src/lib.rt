//! The lines with which an input asks for a position: its odds and its half-move clock, if these are named, and a FEN.
#![tactic(auto)]

mod faults;
mod input_lines;
mod positions;
mod questions;

pub use faults::InputFault;
pub use input_lines::split_first_line;
pub use positions::read_lone_position;
pub use questions::{Position, Question, read_lone_question, read_question};
