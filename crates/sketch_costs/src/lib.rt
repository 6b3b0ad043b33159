//! What the figures of a sketch cost at prices of captures by pawns, and what their men did at the least cost. It is quick, and nothing rests
//! on it: whoever finds prices by it shows with the rule what they do. It takes no memory.
//!
//! Articles are those of the FIDE Laws of Chess, in force from 1 January 2023.
#![tactic(auto)]

mod accounts;
mod assigning;
mod classes;
mod deeds;
mod fees;
mod rows;
mod terrains;
mod views;

pub use accounts::SideAccount;
pub use deeds::Deeds;
pub use fees::Fees;
pub use rows::{Row, Rows, rows_of};
pub use sketch_grounds::{Zones, are_begun, greatest_frozen, zones_of};
pub use terrains::{SideTerrain, Terrain};
