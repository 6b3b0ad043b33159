//! A bounded search for refutations: a claim is proved by a certificate, or the first line of unmoves that stays open is given.
//! What a search by rule lines finds is fixed, down to the queries that it visits. Which prices and sketches are sought besides flat prices
//! and sketches of one node (`reasoning`, `quests`), and which lines siblings share (`shared_lines`), may be changed freely.
//!
//! Articles are those of the FIDE Laws of Chess, in force from 1 January 2023.
#![tactic(auto)]

mod answering;
mod answers;
mod attempts;
mod copying;
mod laws;
mod limits;
mod memos;
mod quests;
mod reasoning;
mod refutations;
mod runs;
mod searchers;
mod searching;
mod shared_lines;
mod shutting;
mod solving;
mod unrefuted;

pub use answers::Found;
pub use laws::{
    deeper_searches_refute_more, one_cost_each, one_memo_cost_each, one_open_line_each,
    one_search_size_each,
};
pub use limits::Limits;
pub use runs::Reasons;
pub use searchers::{Outcome, Searcher};
pub use sketch_findings::{LARGE, QUICK, SMALL, SketchLimits};
pub use solving::solve;
