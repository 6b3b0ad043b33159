//! The grounds of a sketch's account: the greatest set of its figures that never moved, the zones of its pawns, and where its officers can
//! have stood beside them. It takes no memory.
//!
//! Articles are those of the FIDE Laws of Chess, in force from 1 January 2023.
#![tactic(auto)]

mod begun;
mod entries;
mod frozen;
mod pawn_zones;
mod rooms;
mod sets;
mod zones;

pub use begun::are_begun;
pub use frozen::greatest_frozen;
pub use pawn_zones::{Zone, Zones};
pub use rooms::room_from;
pub use zones::{zone_of, zones_of};
