//! What a search for sketches finds, and that it proves that no game comes to a position: a walk over its lines goes before it is given away.
//! Only a proof itself takes memory.
//!
//! Articles are those of the FIDE Laws of Chess, in force from 1 January 2023.
#![tactic(auto)]

mod found;
mod plain;
mod ranges;
mod roots;

pub use found::{FoundSketch, if_proved};
pub use plain::plain_root;
pub use roots::root_of;
pub use sketch_checker::SketchLine;
