//! Forsyth-Edwards Notation (FEN): a query as one line of text. What isn't FEN is refused with the place where it stops being so.
//! Beside it the lines that name odds and a half-move clock, numbers, and sets of squares in hexadecimal digits.
//! The way in which a text is cut into parts, and the fault of a part becomes that of the whole, is stated for any grammar.
#![tactic(auto)]

mod clock_lines;
mod demands;
mod faults;
mod fields;
mod laws;
mod numbers;
mod odds_lines;
mod parts;
mod placements;
mod positions;
mod pushing;
mod ranks;
mod sets;
mod writing;

pub use clock_lines::{read_clock, write_clock};
pub use demands::at_demands;
pub use faults::FenFault;
pub use fields::{read_decimal, read_turn};
pub use laws::{one_text_each, one_text_of_a_clock, one_text_of_odds};
pub use numbers::read_number;
pub use odds_lines::{read_odds, write_odds};
pub use parts::split_part;
pub use positions::{read_fen, read_four_fields};
pub use pushing::push_text;
pub use sets::{read_set, set_text};
pub use writing::{castle_letter, turn_letter, write_fen};
