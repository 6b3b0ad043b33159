//! Tests of the checker: what it answers to certificates that are written out, in pieces and whole. More stand among the rows of `rows_run`.
#![tactic(auto)]

#[cfg(test)]
mod first_faults;
#[cfg(test)]
mod sketches;
#[cfg(test)]
mod streams;
