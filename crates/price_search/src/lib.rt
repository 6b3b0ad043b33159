//! The search for prices at which the balance of captures shows that no game leads to a position. What it finds is tried by the rule
//! itself, so nothing rests on how it is found. Only the desk, on which it keeps what it found, takes memory.
#![tactic(auto)]

mod ascent;
mod classes;
mod costs;
mod desk;
mod flat_grounds;
mod homes;
mod keys;
mod lands;
mod outcomes;
mod payers;
mod places;
mod plain;
mod standing;
mod tallies;
mod ways;
mod weighing;

pub use desk::{PriceDesk, find_balance};
pub use payers::Payers;
