//! Cages: men who can't have moved, and where others can have gone meanwhile. It takes no memory.
//!
//! Articles are those of the FIDE Laws of Chess, in force from 1 January 2023.
#![tactic(auto)]

mod arrays;
mod frozen;
mod laws;
mod refutations;
mod roaming;
mod sets;
mod steps;
mod ways;

pub use arrays::{as_array, greatest_as_array};
pub use frozen::{greatest_frozen, is_frozen};
pub use laws::{
    frozen_men_stood, frozen_refutes, larger_sets_gain, officers_stay_in_regions,
    regions_are_least, walled_men_stay,
};
pub use refutations::{captures_refute, promotions_refute};
pub use roaming::{exposed, is_dead, is_officer_home, is_shielded, region, region_from};
pub use steps::{ahead, pawn_steps, piece_steps};
