//! The search for a sketch that shows that no game comes to a position: what the search for trees finds, written as lines, if a walk over
//! them shows that they prove it. It is bounded, gives the same answer each time, and answers `Memory` if it is out of memory.
//!
//! Articles are those of the FIDE Laws of Chess, in force from 1 January 2023.
#![tactic(auto)]

mod beginnings;
mod desks;
mod finding;
mod writing;

pub use desks::SketchDesk;
pub use finding::find_sketch;
pub use sketch_found::{FoundSketch, SketchLine};
pub use sketch_trees::{LARGE, Limits, QUICK, SMALL};
