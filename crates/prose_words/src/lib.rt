//! Words for sides, men, squares and numbers, of which proofs in plain words are made.
#![tactic(auto)]

mod words;

pub use words::{
    colour_word, initial, kind_word, place_initial, place_letter, push_man, push_number,
    push_square, push_square_if, push_squares, say, side_word, wing_word,
};
