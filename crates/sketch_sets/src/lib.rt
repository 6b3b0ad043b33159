//! Sets of sketches: what a moment of a game leaves of them, where their figures may have come from, and whether they can be. It takes no
//! memory.
//!
//! Articles are those of the FIDE Laws of Chess, in force from 1 January 2023.
#![tactic(auto)]

mod checks;
mod closed;
mod crowds;
mod ground;
mod homes;
mod masks;
mod origins;
mod pieces;
mod remade;
mod shifts;
mod terrain;
mod touching;
mod trims;
mod unions;
mod ways;

pub use checks::{gives_check, is_clash, side_checks};
pub use closed::least_closed;
pub use crowds::{figures_of, is_crowded, men_begun};
pub use homes::{count, homes_on, may_be_array};
pub use masks::{has_file, is_within, those_that};
pub use trims::{all_leave_room, is_pawn_beside, stands_above, stands_below, trim};
pub use ways::{goes_straight, is_pawn, on_the_way};
