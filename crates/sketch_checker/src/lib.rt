//! A walk over the lines of a proof that no game comes to a sketch. Line by line it goes on, until it is done or meets the first fault. It
//! takes no memory.
//!
//! Articles are those of the FIDE Laws of Chess, in force from 1 January 2023.
#![tactic(auto)]

mod beginning;
mod checking;
mod dues;
mod ends;
mod faults;
mod frames;
mod laws;
mod marking;
mod opening;
mod roots;
mod settings;
mod walks;

pub use beginning::can_begin;
pub use checking::walk_lines;
pub use faults::SketchFault;
pub use laws::{
    bodies_support, lines_walk_the_tree, one_line_walk, one_sketch_walk, sketch_walk_proves,
    sketches_support,
};
pub use roots::is_root;
pub use settings::SketchSetting;
pub use sketch_body::SketchLine;
pub use sketch_walk::StepsBack;
pub use walks::SketchWalk;
