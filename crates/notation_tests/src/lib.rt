//! Tests of texts: what FENs, games, notation, questions and lengths are read as, and what is written.
#![tactic(auto)]

#[cfg(test)]
mod fens;
#[cfg(test)]
mod games;
#[cfg(test)]
mod length_texts;
#[cfg(test)]
mod lines;
#[cfg(test)]
mod notation;
