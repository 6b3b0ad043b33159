//! The text of dossiers. A dossier is a claim of several steps about a query, and a certificate for each of its parts. It takes no
//! memory.
#![tactic(auto)]

mod counts;
mod heads;
mod laws;
mod writing;

pub use counts::{read_count_line, write_count_line};
pub use heads::{DossierHead, read_head};
pub use laws::{
    dossiers_prove, heads_are_short, heads_bar_no_move, heads_have_lines, one_head_each,
    one_part_each, one_text_of_a_head,
};
pub use writing::write_head;
