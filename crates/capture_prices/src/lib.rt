//! Prices of captures by pawns: what each side pays for one, by the square on which it happens, and what a pawn that never captures
//! pays for the squares that it treads. It takes no memory.
#![tactic(auto)]

mod prices;

pub use prices::{Gate, Prices};
