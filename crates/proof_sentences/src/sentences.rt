use arrayvec::ArrayVec;
use balance_prose::Numbers;
use board_base::{Castle, Colour, Square, SquareSet};
use capture_prices::Prices;
use query_base::Query;

/// A sentence that tells why no game reaches a query, or a part of that.
#[derive(Drop)]
pub enum Sentence {
    /// Not each side has exactly one king.
    Kings,
    /// A pawn stands on this square of rank 1 or 8.
    Ranks(Square),
    /// The king of this side, which isn't to move, stands in check on this square.
    Check(Colour, Square),
    /// The king or the rook of this castling, which never moved, was left out or isn't at home.
    Rights(Castle),
    /// The men on these squares shut each other in.
    Caged(SquareSet),
    /// The square of the set doesn't hold what it held in the beginning.
    Changed(SquareSet, Square),
    /// The men on these squares never moved.
    Settled(SquareSet),
    /// What is said of the pawns of a side, or of the men whom it lacks.
    OnPawns(PawnFact),
    /// What is said of a balance of captures.
    OnBalance(BalanceFact),
    /// The position stood so many half-moves later too, if this query asks no more.
    Back(u8, Query),
    /// The side that moved last has no move that can have been the last; whether the query is the first that is told.
    Still(bool),
    /// The side that moved last has several; whether the query is the first that is told.
    Moved(bool),
}

/// What a sentence says of the pawns of a side, or of the men whom it lacks. Many say it of a set: while the men on these squares stood,
/// who never moved.
#[derive(Drop)]
pub enum PawnFact {
    /// The side has more pawns, with the men who must have been promoted, than it began with.
    Count {
        side: Colour,
        /// How many pawns it has.
        pawns: u8,
        /// The same, with the men who must have been promoted.
        together: u16,
        /// With how many pawns it began.
        began: u8,
        /// Whether the query is the first that is told.
        first: bool,
    },
    /// While the men of the set stood, some officers of the side were captured.
    Gone(Colour, SquareSet),
    /// So the side has more pawns, with the promoted men, than it began with.
    Promoted {
        side: Colour,
        set: SquareSet,
        /// How many pawns it has.
        pawns: u8,
        /// With how many pawns it began.
        began: u8,
        /// Whether the query is the first that is told.
        first: bool,
    },
    /// The side's pawns have made so many captures at least, as many as where they began on these files.
    Way {
        side: Colour,
        captures: u16,
        /// The file on which each pawn began, in ascending order of their squares.
        files: ArrayVec<u8, 8>,
    },
    /// The side's pawns have made so many captures at least, which is more than the men of the other side whom they can have taken.
    AtLeast {
        side: Colour,
        set: SquareSet,
        captures: u16,
    },
    /// The side lacks so many men, and no pawn took some of them.
    Lacks {
        side: Colour,
        set: SquareSet,
        /// How many men it lacks.
        missing: u8,
        /// Whether the query is the first that is told.
        first: bool,
    },
}

/// What a sentence says of a balance of captures, while the men on a set stood, who never moved.
#[derive(Drop)]
pub enum BalanceFact {
    /// What a capture by a pawn of the side costs, and what a pawn that neither captured nor was taken as a pawn pays for squares.
    Priced(SquareSet, Prices),
    /// At these prices the men of each side cost so much at least, 96 for each man included.
    Balanced {
        set: SquareSet,
        prices: Prices,
        /// What White's men cost.
        white: u32,
        /// What Black's men cost.
        black: u32,
        numbers: Numbers,
    },
    /// The captures that count at these prices, and why each gate counts once at most.
    Counted(SquareSet, Prices),
    /// What the men count who began on these homes, at which they cost the least, and that those who are gone make up for less.
    Best {
        set: SquareSet,
        prices: Prices,
        /// White's homes, by their places among White's sixteen.
        white: ArrayVec<u8, 16>,
        /// Black's homes, in the same way.
        black: ArrayVec<u8, 16>,
        /// Whether the query is the first that is told.
        first: bool,
        numbers: Numbers,
    },
    /// The men of this side can't all have begun on homes of their own.
    Homeless(Colour, SquareSet),
}
