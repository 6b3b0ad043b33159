use board_base::{Colour, Square, SquareSet};

/// Squares on which captures are counted.
#[derive(Clone, Copy, PartialEq, Eq, Debug)]
pub enum Squares {
    /// All squares.
    All,
    /// The dark ones.
    Dark,
    /// The light ones.
    Light,
    /// Those of this class, by file and shade: twice the file, from 0 for a, and one more if they are light.
    Class(u8),
}

/// What may be supposed of the games that lead to a position, to be refuted.
#[derive(Clone, Copy, PartialEq, Eq, Debug)]
pub enum Supposition {
    /// The man on this square began on one of these.
    Began(Square, SquareSet),
    /// On this square stands a pawn, who has captured nowhere if this is true, and somewhere otherwise.
    Went(Square, bool),
    /// The man who began on this square stands on the board, and was promoted if this is true, and never otherwise.
    Stands(Square, bool),
    /// The man who began on this square was taken. He had been promoted if the first is true, and never otherwise; a pawn took him if the
    /// second is true, and none otherwise.
    Gone(Square, bool, bool),
    /// This side's pawns made at most so many captures on these squares.
    AtMost(Colour, Squares, u8),
    /// They made at least so many there.
    AtLeast(Colour, Squares, u8),
}
