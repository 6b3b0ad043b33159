ghost use Rattle.std.specs.Prelude.{◌≡◌, ◌↔◌, IsTrue, List, Bool, length};
ghost use Rattle.cage_rules.specs.Frozen.{IsFrozen};
ghost use Rattle.play_rules.specs.Reach.{IsWithin};

use crate::sets::{is_same, is_whole};
use crate::ways::{kept, ways_of};
use board_base::SquareSet;
use query_base::Query;

/// Whether the set is frozen in the query: each of its squares is occupied, and is a home of a right that is held, or each square
/// from which its man may have come, or that he may have crossed last, is in the set too.
pub fn is_frozen(query: &Query, set: SquareSet) -> bool
    ensures { IsTrue result ↔ IsFrozen query.now set }
{
    is_whole(set);
    is_same(kept(&ways_of(query), set), set)
}

/// The greatest frozen set within a set: what is left of it when squares that may have been left are taken out, until there are none.
pub(crate) fn settled(query: &Query, start: SquareSet) -> SquareSet
    ensures frozen { IsFrozen query.now result }
    ensures within { IsWithin result start }
    ensures greatest { (set : List Bool) → IsFrozen query.now set → IsWithin set start → IsWithin set result }
{
    is_whole(start);
    let ways = ways_of(query);
    let mut set = start;
    'rounds: loop {
        let left = kept(&ways, set);
        if is_same(left, set) {
            return set;
        }
        set = left;
    }
}

/// Tells the caller that a query's board has 64 places.
pub(crate) fn has_whole_board(query: &Query)
    ensures { length query.now.board ≡ 64 }
{
    query.board.is_whole();
}

/// The greatest frozen set: it is frozen, and contains every frozen set.
pub fn greatest_frozen(query: &Query) -> SquareSet
    ensures frozen { IsFrozen query.now result }
    ensures greatest { (set : List Bool) → IsFrozen query.now set → IsWithin set result }
{
    has_whole_board(query);
    settled(query, SquareSet::from_bits(u64::MAX))
}
