//! The body of a sketch, as text: its lines of prices, and those of its nodes and marks. They are read one after another, without chess,
//! each as soon as it stands there, and each has one text.
//!
//! Articles are those of the FIDE Laws of Chess, in force from 1 January 2023.
#![tactic(auto)]

mod bodies;
mod charges;
mod counts;
mod due;
mod laws;
mod lines;
mod nodes;
mod wholes;
mod writing;

pub use bodies::SketchBody;
pub use due::SketchDue;
pub use laws::{bodies_are_read, each_reading_ends, one_body_each};
pub use lines::{SketchItem, SketchLine};
pub use writing::{write_line, write_prices};
