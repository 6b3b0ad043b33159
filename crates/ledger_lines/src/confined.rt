//! Officers who can't have left a few squares beside the men of a frozen set.

ghost use Rattle.std.specs.Prelude.{◌≡◌, ◌↔◌, IsTrue, length};
ghost use Rattle.cage_rules.specs.Regions.{is_officer_home};
ghost use Rattle.ledger_lines.specs.Known.{AreWithin, HasStayed, IsKept, has_officer};

use board_base::{Square, SquareSet};
use cage_rules::{greatest_frozen, is_officer_home, region};
use query_base::Query;

/// Whether a queen, a rook, a bishop or a knight begins on the square at the query's odds (article 2.3).
pub fn has_officer(query: &Query, h: Square) -> bool
    ensures { result ≡ has_officer query.now h }
{
    is_officer_home(h) && !query.odds.set().has(h)
}

/// Whether each square of the first set is one of the second.
fn are_within(inner: SquareSet, outer: SquareSet) -> bool
    ensures { IsTrue result ↔ AreWithin inner outer }
{
    for i in 0..64 {
        let s = Square::known(i);
        if inner.has(s) && !outer.has(s) {
            return false;
        }
    }
    true
}

/// Tells the caller that a set has 64 truth values.
fn is_whole(set: SquareSet)
    ensures { length set ≡ 64 }
{
    let _ = set.has(Square::known(0));
}

/// Whether the array's man on a square can't have left these squares beside the men of a frozen set.
fn is_kept(query: &Query, h: Square, squares: SquareSet) -> bool
    requires { IsTrue (is_officer_home h) }
    ensures { IsTrue result ↔ IsKept query.now h squares }
{
    let set = greatest_frozen(query);
    is_whole(set);
    are_within(region(set, h), squares)
}

/// Whether an officer began on the square, and can't have left these.
pub(crate) fn has_stayed(query: &Query, h: Square, squares: SquareSet) -> bool
    ensures { IsTrue result ↔ HasStayed query.now h squares }
{
    is_officer_home(h) && !query.odds.set().has(h) && is_kept(query, h, squares)
}
