//! The account of a sketch: what its figures and its men who are gone cost at prices of captures by pawns, and whether that is more than it
//! can be. It takes no memory.
//!
//! Articles are those of the FIDE Laws of Chess, in force from 1 January 2023.
#![tactic(auto)]

mod accounts;
mod goals;
mod grounds;
mod laws;
mod losses;
mod rows;
mod tables;
mod ways;

pub use accounts::{Scales, closes, forces};
pub use laws::plain_accounts_balance;
pub use sketch_grounds::{are_begun, greatest_frozen};
