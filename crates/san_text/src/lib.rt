//! Algebraic notation: moves as players write them, read and written in a state of a game, and whole games read.
//!
//! Articles are those of the FIDE Laws of Chess, in force from 1 January 2023. The notation is that of its appendix C in English,
//! with the letters and signs of the PGN standard: `=` before what a pawn becomes, `x` in each capture, `+` for check, `#` for mate
//! and `O` in castling.
#![tactic(auto)]

mod fitting;
mod games;
mod grammar;
mod marks;
mod naming;
mod playing;
mod reading;
mod spelling;
mod words;
mod writing;

pub use games::{SanGameFault, one_game_each, one_state_follows, read_san_game};
pub use grammar::texts_have_forms;
pub use reading::{SanFault, read_san};
pub use spelling::{SpellFault, write_san_game};
pub use writing::write_san;
