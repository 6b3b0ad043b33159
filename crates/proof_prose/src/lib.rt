//! The proof of a certificate in plain words, for readers who know chess.
#![tactic(auto)]

mod bodies;
mod heads;
mod labels;
mod nodes;
mod paragraphs;
mod phrases;
mod prose;

pub use bodies::Spoken;
pub use heads::draw;
pub use labels::push_label;
pub use nodes::{Line, Told};
pub use paragraphs::Said;
pub use prose::{explain, retell};
