//! What pawns pay and earn by captures, and which squares they tread. Everything here holds of every game. It takes no memory.
//!
//! Articles are those of the FIDE Laws of Chess, in force from 1 January 2023.
#![tactic(auto)]

mod costs;
mod files;
mod strikes;
mod tolls;

pub use costs::costs_fit_gates;
pub use files::files_are_shared;
pub use strikes::strikes_balance;
pub use tolls::pawns_pay_tolls;
