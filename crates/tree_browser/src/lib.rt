//! The retractions of a query as a tree, written as text.
#![tactic(auto)]

mod lines;
mod notes;
mod trees;

pub use trees::{TreeFault, one_text_each, tree_text};
