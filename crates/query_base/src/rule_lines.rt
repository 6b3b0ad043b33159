use board_base::{Colour, Potentials, SquareSet};

/// A reason, of one line, why no game reaches a query. What each of them asks of the query is a formula of its own.
#[derive(Clone, Copy, PartialEq, Eq, Debug)]
pub enum RuleLine {
    /// Some colour hasn't exactly one king.
    Kings,
    /// A pawn stands on the first or on the eighth rank.
    Ranks,
    /// The side to move attacks a king of the other side, which would have been left in check (article 3.9).
    Check,
    /// The right to a castling is demanded whose king or rook isn't on its first square (article 3.8.2.1).
    Rights,
    /// This side has more pawns, and men that must have been pawns (article 3.7), than the eight pawns that it began with (article
    /// 2.2).
    Count(Colour),
    /// What stands on these squares can't have come there, and isn't what stood there in the array (article 2.3).
    Frozen(SquareSet),
    /// This side's pawns needed more captures (article 3.7.3) to come to their files than there were men to capture. What stands on the
    /// squares of the set can't have come there. The potentials show how few captures bring the pawns there.
    Caps(Colour, SquareSet, Potentials),
    /// This side has more pawns, and men that must have been pawns (article 3.7), than the eight pawns that it began with, since some of
    /// its officers must have been captured. What stands on the squares of the set can't have come there.
    Promo(Colour, SquareSet),
}
