//! The lines of sketches in certificates, as text: the line that begins a sketch, those of its nodes, and those of marks. They are read
//! without chess, and each has one text. It takes no memory.
//!
//! Articles are those of the FIDE Laws of Chess, in force from 1 January 2023.
#![tactic(auto)]

mod cutting;
mod heads;
mod labels;
mod laws;
mod marks;
mod nodes;
mod numbers;
mod writing;

pub use heads::{SketchHead, read_sketch_head};
pub use labels::{Label, Officer, StepLabel, Taken, Victim, Way, read_label};
pub use laws::one_text_each;
pub use marks::{MarkLine, read_marks};
pub use nodes::{End, SketchNode, read_sketch_node};
pub use writing::{write_marks, write_sketch_head, write_sketch_node};
