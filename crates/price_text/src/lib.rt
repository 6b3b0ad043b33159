//! The text of prices of captures by pawns, with their gates. It takes no memory.
//!
//! Articles are those of the FIDE Laws of Chess, in force from 1 January 2023.
#![tactic(auto)]

mod laws;
mod price_reading;
mod price_writing;
mod words;

pub use laws::one_text_of_prices;
pub use price_reading::{are_priced, read_prices};
pub use price_writing::push_prices;
pub use words::is_slash;
