ghost use Rattle.std.specs.Prelude.{◌≡◌, ◌↔◌, IsTrue, List, Bool};
ghost use Rattle.cage_rules.specs.Frozen.{IsAsArray, IsFrozen};
ghost use Rattle.cage_rules.specs.Tests.{squares_alike};
ghost use Rattle.play_rules.specs.Reach.{IsWithin};

use crate::frozen::{has_whole_board, settled};
use crate::sets::{both, is_same, is_whole, with_if};
use board_base::{Board, Odds, Square, SquareSet, array_of, is_same_place};
use query_base::Query;

/// The squares that hold the same on both boards.
fn squares_alike(board: &Board, first: &Board) -> SquareSet
    ensures { result ≡ squares_alike board.now first.now }
{
    let mut alike = SquareSet::from_bits(0);
    for i in 0..64 {
        let s = Square::known(i);
        alike = with_if(alike, s, is_same_place(board.at(s), first.at(s)));
    }
    alike
}

/// Whether each square of the set holds what the array at these odds has there (article 2.3): nobody if his home is among them.
pub fn as_array(board: &Board, set: SquareSet, odds: Odds) -> bool
    ensures { IsTrue result ↔ IsAsArray odds board.now set }
{
    is_whole(set);
    is_same(both(set, squares_alike(board, &array_of(odds))), set)
}

/// The greatest frozen set that is as in the array at the query's odds: it is frozen, holds what that array has there, and contains
/// every set of which both are true.
pub fn greatest_as_array(query: &Query) -> SquareSet
    ensures frozen { IsFrozen query.now result }
    ensures as_array { IsAsArray query.now.odds query.now.board result }
    ensures greatest { (set : List Bool) → IsFrozen query.now set → IsAsArray query.now.odds query.now.board set → IsWithin set result }
{
    has_whole_board(query);
    settled(query, squares_alike(&query.board, &array_of(query.odds)))
}
