//! Which of the least assignments is named if several cost the same. It takes no memory.
#![tactic(auto)]

mod first;
mod rest;

pub use first::first_pairing;
