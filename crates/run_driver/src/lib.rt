//! Runs of the commands over sources and sinks in memory, for the crates of tests.
#![tactic(auto)]

mod driving;

pub use driving::{Ports, Row, WHOLE, is_answered, run_on};
pub use retro_top::{Status, run};
