//! The chess board: squares and sets of them, men, boards and attacks, moves and castlings, their texts and orders. It takes no memory.
//!
//! Articles are those of the FIDE Laws of Chess, in force from 1 January 2023.
#![tactic(auto)]

mod attacks;
mod boards;
mod castles;
mod checks;
mod laws;
mod lines;
mod memory;
mod men;
mod move_lists;
mod moves;
mod odds;
mod orders;
mod potentials;
mod ranks;
mod rays;
mod square_sets;
mod squares;
mod texts;
mod unmoves;

pub use attacks::{
    attacks_from, files_between, is_ahead, is_clear, is_diagonal, is_line, man_attacks,
    ranks_between,
};
pub use boards::{Board, is_same_place};
pub use castles::{Castle, CastleSet};
pub use checks::{in_check, is_king_attacked};
pub use laws::{one_text_of_a_move, one_text_of_an_unmove, order_of_moves, order_of_unmoves};
pub use lines::{Change, Direction, along};
pub use memory::Memory;
pub use men::{Colour, Kind, Man, is_a, is_of, is_the};
pub use move_lists::{MoveList, UnmoveList};
pub use moves::{Move, is_move};
pub use odds::{Odds, array_of};
pub use orders::{cmp_move, cmp_unmove};
pub use potentials::{Potentials, are_within_limit};
pub use ranks::{last_rank, pawn_rank};
pub use square_sets::SquareSet;
pub use squares::Square;
pub use texts::{
    kind_letter, push_square, read_move, read_square, read_unmove, write_move, write_unmove,
};
pub use unmoves::Unmove;
