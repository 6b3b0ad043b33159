//! The independent check of dossiers: from their bytes to the claim of several steps that they prove, or to their first fault. It
//! takes no memory.
#![tactic(auto)]

mod laws;
mod parts;
mod reading;
mod refusals;
mod stages;
mod streams;

pub use dossier_text::dossiers_prove;
pub use laws::{
    accepted_are_dossiers, accepted_lines_are_written, one_dossier_answer,
    unlisted_in_parts_have_texts,
};
pub use reading::{ProvedLine, read_dossier};
pub use refusals::{AcceptedLine, DossierRefused};
pub use streams::check_dossier;
