//! Claims of several steps: that the rights to two castlings aren't both kept, or which moves were the last ones. Each is shown by
//! its parts due, which are claims of one query each. It takes no memory.
//!
//! Articles are those of the FIDE Laws of Chess, in force from 1 January 2023.
#![tactic(auto)]

mod claims;
mod laws;
mod parts;
mod reading;
mod step_lists;
mod steps_left;
mod unlisted;
mod writing;

pub use claims::LineClaim;
pub use laws::{one_text_of_a_line_claim, parts_bar_no_move, parts_make_lines_hold};
pub use parts::Due;
pub use reading::read_line_claim;
pub use step_lists::StepList;
pub use unlisted::unlisted_step;
pub use writing::write_line_claim;
