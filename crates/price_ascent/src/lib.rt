//! The ascent to prices of captures by pawns at which men cost more than they can: what was paid and earned at the prices so far, where the
//! next ones are, and when there is nothing to find. Nothing rests on how prices are found, since whoever uses them shows what they do. It
//! takes no memory.
#![tactic(auto)]

mod places;
mod rows;
mod stepping;
mod tallies;
mod weighing;

pub use places::{place_of, place_of_gate};
pub use rows::PriceRow;
pub use stepping::slopes;
pub use tallies::Tally;
pub use weighing::{WHOLE, Weighing};
