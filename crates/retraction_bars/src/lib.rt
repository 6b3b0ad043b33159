//! Why nobody can have moved last: for each man of the side that moved, what bars each way in which he may have come to his square.
//!
//! Articles are those of the FIDE Laws of Chess, in force from 1 January 2023.
#![tactic(auto)]

mod bars;
mod checks;
mod exceptions;
mod gathering;
mod grounds;
mod laws;
mod lines;
mod numbers;
mod pairs;
mod phrases;
mod scopes;
mod sentences;
mod ways;

pub use bars::{Bar, is_barred};
pub use gathering::{Clause, clauses};
pub use laws::{bars_hold, bars_keep_out, listed_are_ways, pairs_hold, ways_are_told};
pub use lines::push_bars;
pub use numbers::bar_at;
pub use pairs::{Pair, pair_of};
pub use scopes::{Manner, Scope};
pub use ways::is_way;
