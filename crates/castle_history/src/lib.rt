//! What a board and a move tell of castlings (article 3.8.2). It takes no memory.
//!
//! Articles are those of the FIDE Laws of Chess, in force from 1 January 2023.
#![tactic(auto)]

mod homes;
mod taken_back;

pub use homes::{are_at_home, castling_from, held_fits, home, target, touches};
pub use taken_back::castle_of;
