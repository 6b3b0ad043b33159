//! The balance of captures: prices for captures by pawns, and gates on files, show that no game leads to a position. It takes no memory.
//!
//! Articles are those of the FIDE Laws of Chess, in force from 1 January 2023.
#![tactic(auto)]

mod balance;
mod earnings;
mod fates;
mod grounds;
mod laws;
mod men;
mod reaches;
mod tables;
mod tariffs;
mod views;

pub use balance::{balances, is_whole, most_cost, side_cost};
pub use earnings::{both, earned_in_each, squares_of_class};
pub use fates::{loss_at, stands};
pub use grounds::{Ground, ground_of, set_prices};
pub use laws::{balance_closes, costs_bound_walls};
pub use men::squares_of_men;
pub use reaches::{NEVER, Reach, capped_sum, fee_at, toll_at};
pub use tables::{begun_with, cost_table, fill_up, gone_row, number_of_home};
pub use tariffs::{Tariff, class_of};
pub use views::{number_of, seen_by};
