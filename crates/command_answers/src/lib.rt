//! How each command answers an input: the status and the text of its answer, and the writing of such a text.
#![tactic(auto)]

mod atleasts;
mod certificates;
mod checks;
mod dossiers;
mod explains;
mod lengths;
mod lines;
mod plays;
mod questions;
mod reports;
mod samples;
mod sans;
mod settles;
mod sketches;
mod solves;
mod spells;
mod statements;
mod statuses;
mod studies;
mod texts;
mod told;
mod trees;
mod unmoves;
mod verdicts;

pub use atleasts::answer_atleast;
pub use checks::answer_check;
pub use dossier_checker::{
    accepted_are_dossiers, accepted_lines_are_written, dossiers_prove, one_dossier_answer,
};
pub use dossiers::answer_dossier;
pub use explains::answer_explain;
pub use lengths::answer_length;
pub use lines::answer_line;
pub use plays::answer_play;
pub use position_report::Limits;
pub use reports::answer_report;
pub use samples::answer_sample;
pub use sans::answer_san;
pub use settles::answer_settle;
pub use solves::answer_solve;
pub use spells::answer_spell;
pub use statuses::Status;
pub use studies::answer_study;
pub use texts::{Text, held, write_text};
pub use trees::answer_tree;
pub use unmoves::answer_unmoves;
pub use verdicts::answer_verdict;
