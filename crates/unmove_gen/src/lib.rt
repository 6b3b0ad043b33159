//! Retractions: the moves that may have come last in a game that reaches a query, and what they ask of the game before. It takes no
//! memory.
//!
//! Articles are those of the FIDE Laws of Chess, in force from 1 January 2023.
#![tactic(auto)]

mod candidates;
mod captures;
mod conditions;
mod facts;
mod laws;
mod legality;
mod lists;
mod plain_moves;
mod predecessors;
mod sanity;
mod skipping;
mod stops;
mod taking_back;
mod targets;
mod way_tables;
mod ways;

pub use conditions::{obeys_clock, obeys_only};
pub use laws::{
    few_unmoves, last_moves_are_listed, listed_moves_lead_here, targets_are_origins,
    unmoves_ascend, unmoves_have_texts,
};
pub use legality::{answered, is_listed};
pub use lists::{QueryUnmoves, Unmoves};
pub use predecessors::{is_unmove, pred};
pub use taking_back::take_back;
