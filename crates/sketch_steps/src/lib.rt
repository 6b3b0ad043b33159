//! Steps of sketches: which captures by pawns and promotions a sketch may have come by, and what stood before each. It takes no memory.
//!
//! Articles are those of the FIDE Laws of Chess, in force from 1 January 2023.
#![tactic(auto)]

mod places;
mod stepping;
mod steps;
mod taken;

pub use places::recounted;
pub use stepping::{arrives, is_step};
pub use steps::Step;
pub use taken::{ahead, each_before, has_low_places, taken_back, victim_on};
