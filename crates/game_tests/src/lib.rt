//! Tests of the search for games: to which positions one is found, and with which last moves.
#![tactic(auto)]

#[cfg(test)]
mod finding;
#[cfg(test)]
mod refused_memory;
#[cfg(test)]
mod wishes;
