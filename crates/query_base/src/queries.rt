use board_base::{Board, CastleSet, Colour, Move, Odds};
use std::marker::Model;

/// A board, the side to move, and what is demanded of the games that lead there. They begin from the array (article 2.3) at the odds
/// that are named. `only`, if it is given, is a double step of the side not to move, and `clock` is at most 9,999: every value of this type keeps that.
#[derive(Clone, Copy, PartialEq, Eq, Hash, Debug)]
pub struct Query {
    /// The men on the 64 squares. Nothing is asked of them: any number of kings and pawns may stand anywhere.
    pub board: Board,
    /// The side to move.
    pub turn: Colour,
    /// The squares whose men the array lacks from which the games begin; none if they begin from the whole array.
    pub odds: Odds,
    /// The castlings whose right must still be held: neither their king nor their rook has moved (article 3.8.2.1), and the rook
    /// hasn't been captured or left out. Of the other castlings nothing is demanded.
    pub held: CastleSet,
    /// The last move, which must have been this double step of a pawn (article 3.7.2), or None if that isn't demanded. The pawn
    /// that made it may be captured en passant (article 3.7.3.1).
    pub only: Option<Move>,
    /// A move that must not have been the last, or None if none is barred.
    pub barred: Option<Move>,
    /// How many moves must have been made since the last of a pawn or with a capture, from 0 to 9,999, or None if that isn't demanded
    /// (article 9.3).
    pub clock: Option<u16>,
}

impl Model for Query {
    ghost use Rattle.query_base.specs.Asked.{Asked, IsShortClock, is_of_other_side};
    ghost use Rattle.std.specs.Prelude.{IsTrue};

    ghost Value = { Asked };

    ghost view = { λ q. record { board = q.board; turn = q.turn; odds = q.odds; held = q.held; only = q.only; barred = q.barred; clock = q.clock } };

    ghost invariant = { λ q. IsTrue (is_of_other_side q.turn q.only) × IsShortClock q.clock };

    ghost inverse = { λ q. record { board = q.board; turn = q.turn; odds = q.odds; held = q.held; only = q.only; barred = q.barred; clock = q.clock } };
}
