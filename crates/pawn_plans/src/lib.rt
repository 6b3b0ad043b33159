//! How the pawns of a diagram can come home backwards: the least captures that bring them to files of their own, and plans of captures
//! on a board with pawns alone. A search for games goes by these numbers, and nothing is proved of them but that they are there.
#![tactic(auto)]

mod buckets;
mod camps;
mod children;
mod matchings;
mod passings;
mod planning;
mod seen;

pub use buckets::Buckets;
pub use camps::{Camp, Camps};
pub use matchings::{Fewest, NONE, fewest_captures};
pub use passings::{PawnCount, passing};
pub use planning::{Plan, Planner};
pub use seen::Seen;
