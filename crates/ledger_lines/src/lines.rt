use crate::losses::Losses;
use board_base::{Colour, Square, SquareSet};
use ledger_search::Range;

/// Who took a man, as far as it is told.
#[derive(Clone, Copy, PartialEq, Eq, Debug)]
pub enum Taker {
    Anyone,
    Pawn,
    Officer,
}

/// As what a man was taken who began as a pawn, as far as it is told.
#[derive(Clone, Copy, PartialEq, Eq, Debug)]
pub enum Manner {
    Anyhow,
    AsPawn,
    AsPromoted,
}

/// How many captures a side's pawns made, as far as it is told.
#[derive(Clone, Copy, PartialEq, Eq, Debug)]
pub struct Takings {
    /// At least and at most so many in all.
    pub all: Range,
    /// The other side lacks so many men.
    pub lacking: u8,
    /// At least and at most so many on dark squares.
    pub dark: Option<Range>,
    /// At least so many on each class of squares, by file and shade: twice the file, from 0 for a, and one more if they are light.
    pub least_on: [u8; 16],
}

/// A line of a ledger.
#[derive(Clone, Copy, PartialEq, Eq, Debug)]
pub enum Line {
    /// No move began or ended on these squares, on which men of the array stand.
    Unmoved(SquareSet),
    /// The side lacks these men.
    Lacks(Colour, Losses),
    /// The side's pawns made so many captures.
    Captures(Colour, Takings),
    /// The pawn on this square began on one of these, and made at least so many captures, and no more if the last is true. If he went to
    /// another file with each step, he captured on each square of the way.
    Pawn(Square, SquareSet, u8, bool),
    /// The man on the first square began on the second.
    Man(Square, Square),
    /// The pawns on these squares have never left their files.
    Ahead(SquareSet),
    /// The men on these squares began as no pawns.
    Original(SquareSet),
    /// The man on this square, who is no pawn, began as one, on one of these.
    Promoted(Square, SquareSet),
    /// At least so many of the men on these squares began as pawns.
    Among(u8, SquareSet),
    /// The man who began on this square was taken. If the set has the square, he was taken on one of the set.
    Fell(Square, Taker, Manner, SquareSet),
    /// He was a pawn and was promoted.
    Became(Square),
}
