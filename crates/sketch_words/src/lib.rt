//! Words for the proof by a sketch that no game leads to a position, for readers who know chess.
//!
//! Articles are those of the FIDE Laws of Chess, in force from 1 January 2023.
#![tactic(auto)]

mod crowds;
mod denials;
mod names;
mod sentences;
mod sets;
mod spots;
mod steps;

pub use crowds::{Lack, why_list};
pub use denials::push_denials;
pub use names::figures_list;
pub use sentences::{
    push_foreign, push_fresh, push_heading, push_marked, push_settled, push_stepped, push_unknown,
};
pub use sets::{list_of, without};
pub use spots::{Child, Flaw, Spot, is_top};
