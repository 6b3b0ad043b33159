//! Tests of sketches: what never moved, accounts, marks that they force, nodes and steps, and what searches find, on written boards.
#![tactic(auto)]

#[cfg(test)]
mod accounts;
#[cfg(test)]
mod changed_proofs;
#[cfg(test)]
mod findings;
#[cfg(test)]
mod first_nodes;
#[cfg(test)]
mod grounds;
#[cfg(test)]
mod nodes;
#[cfg(test)]
mod price_lines;
#[cfg(test)]
mod proofs;
#[cfg(test)]
mod steps;
#[cfg(test)]
mod walks;
