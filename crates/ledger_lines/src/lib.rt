//! The lines of a ledger, the facts that they consist of, what each says of a game, and whether a ledger knows it. Only their text takes
//! memory.
//!
//! Articles are those of the FIDE Laws of Chess, in force from 1 January 2023.
#![tactic(auto)]

mod among;
mod captors;
mod confined;
mod facts;
mod knowing;
mod laws;
mod lines;
mod losses;
mod slants;
mod writing;

pub use among::{number_in, piece_homes};
pub use captors::is_left;
pub use confined::has_officer;
pub use facts::Fact;
pub use knowing::{
    counts_of, is_fallen, is_known, is_promoted, is_struck, is_unpromoted, is_unstruck, lacking,
};
pub use laws::{known_facts_hold, known_lines_hold};
pub use lines::{Line, Manner, Taker, Takings};
pub use losses::{Losses, losses_of};
pub use slants::{push_way, tells_class, tells_way};
pub use writing::write_line;
