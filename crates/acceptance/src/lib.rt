//! Tests that cross crates: counts of legal lines, and games that are taken back, whose right answers come from outside.
#![tactic(auto)]

#[cfg(test)]
mod games;
#[cfg(test)]
mod perft;
