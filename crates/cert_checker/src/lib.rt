//! The independent check of certificates: from their bytes to the claim that they prove, or to their first fault.
//!
//! Articles are those of the FIDE Laws of Chess, in force from 1 January 2023.
#![tactic(auto)]

mod checkers;
mod checking;
mod counting;
mod frames;
mod laws;
mod left_unmoves;
mod line_ends;
mod line_walk;
mod reasons;
mod refusals;
mod sketch_lines;
mod sketch_walking;
mod sketching;
mod stages;
mod streams;
mod walking;

pub use checkers::Checker;
pub use checking::{check_bytes, read_proof};
pub use laws::{
    accepted_bar_no_move, accepted_have_texts, bad_text_goes_first, certificates_prove, one_answer,
    one_answer_remains, one_walk, rest_answers, unlisted_have_texts, walk_proves,
};
pub use reasons::reason_supports;
pub use refusals::{Accepted, Fault, Refused, StreamRefused, Why};
pub use streams::check_stream;
