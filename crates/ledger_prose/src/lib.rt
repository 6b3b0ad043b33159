//! The lines of a ledger in sentences, as one paragraph: whom each side lacks, how many of them pawns took and which pawns captured, who fell
//! and how, who was promoted and who wasn't, who stands where he didn't begin, and who never moved. Each sentence rests on lines of the ledger.
//! Its words may be changed with specs/Words: that what each sentence says is true of every game is proved of its lines (specs/Saying).
#![tactic(auto)]

mod captures;
mod due;
mod laws;
mod leftovers;
mod losses;
mod men;
mod names;
mod news;
mod numbers;
mod parts;
mod telling;

pub use laws::{news_hold, sentences_hold, sentences_rest_on_lines};
pub use names::{Joint, Style};
pub use news::news_of_all;
pub use parts::{Group, Part, Topic};
pub use telling::tell_ledger_prose;
