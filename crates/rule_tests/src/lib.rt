//! Tests of the rules on sets of squares, promoted men, captures by pawns and their balance, of the crates that they stand on, and of
//! bounds on the length of games.
#![tactic(auto)]

#[cfg(test)]
mod balances;
#[cfg(test)]
mod bounds;
#[cfg(test)]
mod cages;
#[cfg(test)]
mod closing;
#[cfg(test)]
mod lengths;
#[cfg(test)]
mod origins;
#[cfg(test)]
mod pawns;
