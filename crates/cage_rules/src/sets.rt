ghost use Rattle.std.specs.Prelude.{◌≡◌, ◌↔◌, cond, length, slice_set, true, IsTrue};
ghost use Rattle.cage_rules.specs.Sets.{union};
ghost use Rattle.cage_rules.specs.SetSteps.{are_apart, both, outside};

use board_base::{Square, SquareSet};

/// Tells the caller that a set has 64 truth values.
pub(crate) fn is_whole(set: SquareSet)
    ensures { length set ≡ 64 }
{
    let _ = set.has(Square::known(0));
}

/// The squares of both sets.
pub(crate) fn both(a: SquareSet, b: SquareSet) -> SquareSet
    ensures { result ≡ both a b }
{
    SquareSet::from_bits(a.bits() & b.bits())
}

/// The squares of either set.
pub(crate) fn either(a: SquareSet, b: SquareSet) -> SquareSet
    ensures { result ≡ union a b }
{
    SquareSet::from_bits(a.bits() | b.bits())
}

/// The squares that are not in the set.
pub(crate) fn outside(set: SquareSet) -> SquareSet
    ensures { result ≡ outside set }
{
    SquareSet::from_bits(!set.bits())
}

/// The set, with this square if `more` says so.
pub(crate) fn with_if(set: SquareSet, s: Square, more: bool) -> SquareSet
    ensures { result ≡ cond more (slice_set set s true) set }
{
    if more { set.with(s) } else { set }
}

/// Whether the sets have the same squares.
pub(crate) fn is_same(a: SquareSet, b: SquareSet) -> bool
    ensures { IsTrue result ↔ (a ≡ b) }
{
    a.bits() == b.bits()
}

/// Whether the sets have no square in common.
pub(crate) fn is_apart(a: SquareSet, b: SquareSet) -> bool
    ensures { result ≡ are_apart a b }
{
    both(a, b).bits() == 0
}
