//! What a study says of a position, in sentences: what is proved, what a game shows, what stays open, which the last moves were, and how
//! long games are. The words may be changed freely, here and in the definitions of `Sentences.antt`, `Moves.antt` and `Choices.antt`; what they say of
//! games stands apart from them, in `Verdicts.antt` and `LastMoves.antt`.
#![tactic(auto)]

mod choices;
mod claims;
mod last_moves;
mod laws;
mod lengths;
mod rights;
mod steps;
mod telling;
mod verdicts;

pub use choices::{tell_ends, tell_last};
pub use last_moves::{tell_left, tell_line, tell_open_line};
pub use laws::sentences_agree;
pub use telling::tell_verdict;
pub use verdicts::Verdict;
