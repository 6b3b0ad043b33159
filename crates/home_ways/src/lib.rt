//! Sets of squares as 64 bits, and how many moves men are from the squares of the array on which they began, round those who stand in
//! their way. A search for games goes by these numbers, and nothing is proved of them but that they are there.
#![tactic(auto)]

mod bits;
mod floods;
mod homes;
mod ways;

pub use bits::{Squares, bit, count, file_set, has, is_dark, squares_of};
pub use floods::{guarded, steps};
pub use homes::{HOMES, Slot};
pub use ways::{FAR, Shut, Way, Ways};
