//! The balance of captures in plain English, at prices that say which captures count.
#![tactic(auto)]

mod accounting;
mod accounts;
mod counting;
mod lacking;
mod laws;
mod making;
mod numbers;
mod plain;
mod pricing;
mod words;

pub use accounting::push_account;
pub use accounts::least_homes;
pub use counting::push_counts;
pub use laws::{balance_counts_too_many, one_treads};
pub use numbers::Numbers;
pub use plain::{is_plain, lowered};
pub use pricing::{all_gates, push_priced};
pub use words::{push_around, rest_of};
