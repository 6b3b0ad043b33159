//! The search for trees that refute a sketch: which prices close it or force marks in it, and what was before its steps. It is bounded in
//! sketches and in ascents, gives the same answer each time, and answers `Memory` if it is out of memory. Nothing rests on what it finds:
//! whoever uses a tree shows what its lines prove.
//!
//! Articles are those of the FIDE Laws of Chess, in force from 1 January 2023.
#![tactic(auto)]

mod children;
mod counting;
mod fingerprints;
mod limits;
mod looking;
mod marking;
mod marks;
mod search;
mod trees;

pub use children::{Child, Setting, cases_of, closed_above, steps_of};
pub use fingerprints::{Fingerprint, fingerprint_beside};
pub use limits::{LARGE, Limits, QUICK, SMALL};
pub use marking::{Marking, with_marks, with_marks_of};
pub use search::{Close, Reason, Search};
pub use sketch_node::{before_steps, is_void};
pub use sketch_prices::{Basis, Survey};
pub use sketch_walk::StepsBack;
pub use trees::MOST_BELOW;
