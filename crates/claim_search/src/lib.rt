//! The search for what decides a claim: a certificate, which proves it, or a game, which contradicts it.
//!
//! Articles are those of the FIDE Laws of Chess, in force from 1 January 2023.
#![tactic(auto)]

mod settling;

pub use retro_search::{Found, Limits, solve};
pub use settling::settle;
