//! The search for games: from a diagram backwards, retraction by retraction, until the array is reached. Each game that is found is
//! played through before it is answered, so nothing rests on how it is found: what a query is worth (`accounts`, `assigning`, `kings`,
//! `walls`, `wants`, `valuing`), and in which order queries are tried (`hunts`, `orders`), may be changed freely.
//!
//! Articles are those of the FIDE Laws of Chess, in force from 1 January 2023.
#![tactic(auto)]

mod accounts;
mod assigning;
mod attempts;
mod diagrams;
mod finding;
mod hunts;
mod kings;
mod orders;
mod replaying;
mod settings;
mod valuing;
mod walls;
mod wants;

pub use finding::{FEW_QUERIES, Hunt, MOST_QUERIES, find_game};
