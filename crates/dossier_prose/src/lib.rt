//! Dossiers and lengths in plain words: what is claimed, and the proof of each part; and what each man needs.
#![tactic(auto)]

mod claims;
mod dossiers;
mod lengths;
mod parts;

pub use dossiers::explain_dossier;
pub use lengths::explain_length;
