//! Stories: a tree of retractions told in paragraphs, with what was told before referred to, in which a reader finds each node by the
//! retractions that lead to it. How nodes are put together (`trees`, `bundles`, `telling`) may be changed freely: each story is checked.
#![tactic(auto)]

mod bundles;
mod checking;
mod laws;
mod letters;
mod movers;
mod reading;
mod rendering;
mod stories;
mod telling;
mod told;
mod trees;
mod wrapping;

pub use laws::references_repeat;
pub use letters::{Letters, are_same, copied, kept};
pub use movers::{mover_initial, push_became};
pub use stories::{Bundle, Paragraph, Point, Said, Way};
pub use told::tell;
pub use wrapping::push_wrapped;
