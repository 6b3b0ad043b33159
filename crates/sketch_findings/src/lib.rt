//! What a search for sketches finds, as the body of a node of a certificate: it supports the query, and has a text.
//!
//! Articles are those of the FIDE Laws of Chess, in force from 1 January 2023.
#![tactic(auto)]

mod bodies;
mod files;
mod finding;

pub use finding::find_body;
pub use sketch_search::{LARGE, Limits as SketchLimits, QUICK, SMALL, SketchDesk};
