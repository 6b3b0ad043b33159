//! What is found of one claim, by searches for a proof and by games, and the lines that tell it.
#![tactic(auto)]

mod deciding;
mod ends;
mod findings;
mod fronts;
mod games;
mod lines;
mod proving;
mod searchers;
mod subjects;

pub use deciding::{Decided, agreed, counter, decide};
pub use findings::Finding;
pub use games::Games;
pub use lines::{
    push_decided, push_decided_steps, push_found, push_number, push_steps, push_unmoves,
};
pub use proving::{search_at, seek, seek_line};
pub use retro_search::{Limits, Outcome};
pub use searchers::{Searchers, is_refuted};
pub use subjects::Subject;
