//! What a user is told whose words or whose input aren't what a command takes: each text is one line.
#![tactic(auto)]

mod advice;

pub use advice::{Advice, FenAdvice, LineAdvice, MoveAdvice, TextAdvice, WordAdvice};
