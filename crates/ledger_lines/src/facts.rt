use crate::losses::Losses;
use board_base::{Colour, Square, SquareSet};
use ledger_facts::Squares;

/// What may be known of every game that leads to a position.
#[derive(Clone, Copy, PartialEq, Eq, Debug)]
pub enum Fact {
    /// The man on this square began on one of these.
    Began(Square, SquareSet),
    /// The man on this square began as no pawn.
    Original(Square),
    /// The man on this square, who is no pawn, began as a pawn.
    Promoted(Square),
    /// The pawn on this square has captured.
    Captured(Square),
    /// The pawn on this square made at least so many captures.
    Took(Square, u8),
    /// He made at most so many.
    TookAtMost(Square, u8),
    /// If the pawn on this square began as many files away as ranks, he captured on each square of the diagonal between, and on no other.
    Slanted(Square),
    /// The pawn on this square has never left his file.
    Straight(Square),
    /// The man who began on this square was taken.
    Fell(Square),
    /// A pawn took him.
    FellToPawn(Square),
    /// No pawn took him.
    EscapedPawns(Square),
    /// He was a pawn and was promoted.
    Became(Square),
    /// He never was promoted.
    NeverBecame(Square),
    /// He has always stood on one of these; so if he was taken, he was taken there.
    Stayed(Square, SquareSet),
    /// This side's pawns made at least so many captures on these squares.
    AtLeast(Colour, Squares, u8),
    /// They made at most so many there.
    AtMost(Colour, Squares, u8),
    /// This side has so many men of each kind fewer than it began with.
    Lacks(Colour, Losses),
    /// At least so many of the men on these squares began as pawns.
    Among(SquareSet, u8),
}
