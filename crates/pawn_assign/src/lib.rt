//! How few captures bring a side's pawns to where they stand: the least sum of costs over the ways in which the pawns can have begun
//! on the eight files, and potentials that show that no way costs less. It takes no memory.
//!
//! Articles are those of the FIDE Laws of Chess, in force from 1 January 2023.
#![tactic(auto)]

mod answers;
mod assigning;
mod laws;
mod pawns;
mod table;

pub use answers::Least;
pub use assigning::{bound, least};
pub use laws::{least_cost_decides, no_way_costs_less, rows_are_of_the_pawns};
pub use pawns::costs;
pub use table::Costs;
