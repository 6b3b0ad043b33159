//! A study of a position: everything that can be proved of it, each fact in a line of its own. Which claims are put, and to which
//! depth, needs nobody's choice.
//!
//! Articles are those of the FIDE Laws of Chess, in force from 1 January 2023.
#![tactic(auto)]

mod findings;
mod forced;
mod gathering;
mod held;
mod joining;
mod pairs;
mod possible;
mod retractions;
mod rights;
mod studies;
mod texts;

pub use claim_findings::{Finding, Games, Searchers, Subject};
pub use findings::{Findings, Found, find};
pub use forced::StepsFound;
pub use held::{HeldFound, is_open};
pub use pairs::{PairFound, with_both};
pub use retractions::MoveFound;
pub use rights::RightFound;
pub use studies::{makes_demands, study, without_demands};
