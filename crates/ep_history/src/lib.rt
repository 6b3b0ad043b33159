//! What a move and a board tell of captures en passant (article 3.7.3). It takes no memory.
//!
//! Articles are those of the FIDE Laws of Chess, in force from 1 January 2023.
#![tactic(auto)]

mod doubles;
mod fits;

pub use doubles::{double_of, double_over};
pub use fits::ep_fits;
