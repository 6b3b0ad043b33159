use board_base::{Castle, Move};
use query_base::Claim;

/// What one sentence says of a position.
#[derive(Clone, Copy, Debug)]
pub enum Verdict {
    /// The claim holds of every game.
    Shown(Claim),
    /// The capture en passant is legal after every game, of which a last move is demanded.
    GivenPassing(Move),
    /// A game contradicts it.
    Countered(Claim),
    /// Neither is known.
    Unsettled(Claim),
    /// No game leaves both castlings unmoved.
    NotBoth(Castle, Castle),
    /// It isn't known whether one does.
    UnsettledBoth(Castle, Castle),
    /// No game leads to the position with the other side to move.
    OtherShown,
    /// A game does.
    OtherCountered,
    /// Neither is known.
    OtherUnsettled,
    /// No game leads to the position, of which something is demanded that is given below the diagram.
    GivenShown,
    /// Nor does one lead to it without what is demanded.
    PlainShown,
    /// A game leads to it without what is demanded.
    PlainCountered,
    /// Each game has so many half-moves at least.
    AtLeast(u16),
}
