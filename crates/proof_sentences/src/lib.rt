//! Sentences that say why no game reaches a position, or a part of that: the fact of each, and its words.
#![tactic(auto)]

mod balance_facts;
mod balancing;
mod lessening;
mod pawn_facts;
mod pawns;
mod phrases;
mod reasons;
mod rights;
mod sentences;
mod squares;
mod telling;
mod unmoved;
mod ways;

pub use phrases::{push_either, push_unmoved, set_squares};
pub use reasons::{push_one, push_reason};
pub use sentences::Sentence;
