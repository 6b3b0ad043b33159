//! What the least assignment of sixteen rows to sixteen columns costs if one row or one column has other costs: all of it from what the other
//! rows cost at least beside each row that has a column. It takes no memory.
#![tactic(auto)]

mod changes;
mod exchanges;
mod rests;

pub use changes::{cost_with_column, cost_with_row};
pub use rests::rests_of;
