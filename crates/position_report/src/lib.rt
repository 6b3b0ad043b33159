//! A report of a position: the diagram, what is proved and what games show, the ledger in a paragraph, what follows if a right to castle is
//! held, the proofs, how to ask without a last move that is given, how to get a proof of several last moves, what is open, and how long games are. The parts, their order and the words
//! between them may be changed freely, here and in the definitions; each sentence keeps the fact beside it, in `TellsFound` and
//! `TellsImpossible` of `Reports.antt`.
#![tactic(auto)]

mod asking;
mod checking;
mod games;
mod held;
mod last_moves;
mod line_help;
mod parts;
mod proofs;
mod replaying;
mod reporting;
mod runs;
mod sayings;
mod shown;
mod unsettled;

pub use claim_search::{Found, Limits, settle, solve};
pub use diagram_study::study;
pub use proof_prose::explain;
pub use reporting::report;
pub use runs::Run;
pub use shown::{Pair, Shown};
