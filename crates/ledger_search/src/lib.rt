//! The ledger of a position: what flat prices, and prices near them, refute of where its men began, of what became of them, and of how many
//! captures pawns made. It takes no memory.
//!
//! Articles are those of the FIDE Laws of Chess, in force from 1 January 2023.
#![tactic(auto)]

mod contradictions;
mod counts;
mod flat;
mod laws;
mod learning;
mod ledgers;
mod near;
mod questions;

pub use contradictions::is_contradictory;
pub use counts::{Counts, Range};
pub use laws::{contradictions_close, flat_prices_rule_out};
pub use ledgers::{Fates, Ledger, ledger_of};
pub use questions::Question;
