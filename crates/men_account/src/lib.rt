//! Counts of men, and the promotions that they show. It takes no memory.
//!
//! Articles are those of the FIDE Laws of Chess, in force from 1 January 2023.
#![tactic(auto)]

mod allowances;
mod bounds;
mod laws;
mod pawn_laws;
mod side_men;
mod sums;
mod tallies;

pub use allowances::{account_ok, allowance};
pub use bounds::{
    captures_fit_missing, potentials_bound_captures, potentials_fit_regions, promotions_fit_homes,
    promotions_fit_regions,
};
pub use laws::{accounts_hold, bishops_keep_colour, men_keep_labels};
pub use pawn_laws::{pawns_leave_files, pawns_pair_with_files, pawns_take_men};
pub use side_men::men_of;
pub use sums::{counts, excess, is_light};
pub use tallies::{Allowance, Counts};
