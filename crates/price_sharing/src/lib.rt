//! Siblings in the tree of a certificate that are closed by the balance of captures: one line of theirs takes the place of others whose
//! queries it supports too.
//!
//! Articles are those of the FIDE Laws of Chess, in force from 1 January 2023.
#![tactic(auto)]

mod giving;
mod serving;
mod sharing;

pub use sharing::with_shared_lines;
