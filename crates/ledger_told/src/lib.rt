//! Which lines of a position's ledger are told, in order, that each says what is so, and their text. Which are told may be changed with
//! specs/Due: that each of them is true of every game is proved, whichever they are.
//!
//! Articles are those of the FIDE Laws of Chess, in force from 1 January 2023.
#![tactic(auto)]

mod breeds;
mod classes;
mod held;
mod laws;
mod pawns;
mod squares;
mod telling;
mod texts;
mod topics;
mod wholes;

pub use held::{lines_if_held, with_held};
pub use laws::told_lines_hold;
pub use ledger_lines::Line;
pub use telling::told_lines;
pub use texts::{push_line, write_lines};
pub use topics::{Breed, Topic, Whole};
