//! Tests of the program's front door: what is said on standard error, and how the program ends.
#![tactic(auto)]

#[cfg(test)]
mod advice;
#[cfg(test)]
mod serving;
