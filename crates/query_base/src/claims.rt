use board_base::{Castle, Move};

/// What is said of each game that reaches a query. A claim holds if no list of moves, however long, contradicts it; so each
/// claim holds of a query that no game reaches.
#[derive(Clone, Copy, PartialEq, Eq, Debug)]
pub enum Claim {
    /// There is no such game: the position is illegal (article 3.10.3). A game that reaches the query contradicts it.
    Illegal,
    /// The game ends with this move. A game that reaches the query and ends with another move, or has no move, contradicts it.
    Last(Move),
    /// The right to this castling is lost: its king or its rook has moved (article 3.8.2.1), or that rook has been captured or
    /// was left out by the odds. A game that reaches the query with both of them unmoved contradicts it.
    Lost(Castle),
    /// After the game this move is a legal capture en passant (article 3.7.3). A game that reaches the query and after which it
    /// isn't, contradicts it.
    Ep(Move),
}
