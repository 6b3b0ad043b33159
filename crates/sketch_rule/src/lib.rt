//! The rule of sketches: a tree of steps back, each of which an account closes in the end, refutes a sketch. It takes no memory.
//!
//! Articles are those of the FIDE Laws of Chess, in force from 1 January 2023.
#![tactic(auto)]

mod laws;

pub use laws::trees_refute;
