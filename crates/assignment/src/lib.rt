//! The assignment problem: rows are given columns of their own at the least cost, and dual potentials show that no cost is less.
//! It takes no memory.
#![tactic(auto)]

mod bounds;
mod laws;
mod nearest;
mod pairing;
mod path;
mod reading;
mod small;
mod solving;
mod tree;

pub use bounds::bound;
pub use laws::{least_cost_is_least, no_injection_costs_less, potentials_decide};
pub use small::{Solution, solve};
pub use solving::{LargeSolution, solve_large};
