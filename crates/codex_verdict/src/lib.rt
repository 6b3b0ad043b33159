//! The rights that a position seems to give, and what the two conventions of chess problems say of each: castling is permitted unless
//! it is proved that the right is lost, and a capture en passant only if it is proved that the last move was the double step that
//! it answers. It takes no memory.
//!
//! Articles are those of the FIDE Laws of Chess, in force from 1 January 2023.
#![tactic(auto)]

mod kinds;
mod listing;
mod verdicts;

pub use kinds::{Right, claim_of};
pub use listing::rights;
pub use verdicts::verdict_line;
