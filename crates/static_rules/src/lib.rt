//! Reasons of one line why no game reaches a query. It takes no memory.
//!
//! Articles are those of the FIDE Laws of Chess, in force from 1 January 2023.
#![tactic(auto)]

mod closing;
mod closing_laws;
mod laws;
mod living_homes;
mod own_files;
mod rules;
mod set_laws;
mod set_rules;
mod stayed;

pub use closing::close;
pub use closing_laws::{
    best_potentials_support, each_query_is_settled, greatest_sets_decide, larger_sets_support,
};
pub use laws::rights_have_homes;
pub use rules::supports;
pub use set_laws::{caps_closes, frozen_closes, promo_closes};
