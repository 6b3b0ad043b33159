//! A bounded search for dossiers: each part due of a claim of several steps is proved by a certificate, or the first that isn't is
//! named.
#![tactic(auto)]

mod dossiers;
mod parts;
mod solving;

pub use dossiers::Dossier;
pub use solving::solve_line;
