//! Proofs that no game comes to a sketch, as their lines say them, and what they prove. It takes no memory.
//!
//! Articles are those of the FIDE Laws of Chess, in force from 1 January 2023.
#![tactic(auto)]

mod laws;

pub use laws::sketch_proofs_hold;
pub use sketch_node::{before_steps, closes, first_unknown, is_void, known_at, marked};
