//! Whether prices refute a supposition on where men began, what became of them, or how many captures pawns made. It takes no memory.
//!
//! Articles are those of the FIDE Laws of Chess, in force from 1 January 2023.
#![tactic(auto)]

mod accounts;
mod changing;
mod counting;
mod lists;
mod losses;
mod men;
mod refuting;
mod sides;
mod standing;
mod tables;

pub use accounts::{Account, account_of, refutes_in};
pub use counting::{least_count, most_count};
pub use refuting::refutes;
pub use sides::{Side, Table};
