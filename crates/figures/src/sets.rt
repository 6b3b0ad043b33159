ghost use Rattle.std.specs.Prelude.{◌≡◌, ◌↔◌, ◌<◌, ◌&&◌, ℕ, Bool, IsTrue, MatchOption, cond, length, not, slice_set, true};
ghost use Rattle.board_base.specs.Board.{is_in};
ghost use Rattle.past_sketches.specs.Sets.{squares_that, union};
ghost use Rattle.past_sketches.specs.Figures.{only_on};

use board_base::{Square, SquareSet};

/// Tells the caller that a set has 64 truth values.
pub fn is_whole(set: SquareSet)
    ensures { length set ≡ 64 }
{
    let _ = set.has(Square::known(0));
}

/// The squares of both sets.
pub fn both(a: SquareSet, b: SquareSet) -> SquareSet
    ensures { result ≡ squares_that (λ s. is_in a s && is_in b s) }
{
    SquareSet::from_bits(a.bits() & b.bits())
}

/// The squares of either set.
pub fn either(a: SquareSet, b: SquareSet) -> SquareSet
    ensures { result ≡ union a b }
{
    SquareSet::from_bits(a.bits() | b.bits())
}

/// The squares that are not in the set.
pub fn outside(set: SquareSet) -> SquareSet
    ensures { result ≡ squares_that (λ s. not (is_in set s)) }
{
    SquareSet::from_bits(!set.bits())
}

/// Whether the sets have the same squares.
pub fn is_same(a: SquareSet, b: SquareSet) -> bool
    ensures { IsTrue result ↔ (a ≡ b) }
{
    a.bits() == b.bits()
}

/// The set of this square alone.
pub fn only_on(s: Square) -> SquareSet
    ensures { result ≡ only_on s }
{
    SquareSet::from_bits(0).with(s)
}

/// The square of the set, if it has one alone.
pub fn only_square(set: SquareSet) -> Option<Square>
    ensures one { MatchOption result ((s : ℕ) → s < 64 → set ≡ only_on s → ⊥) (λ s. (s < 64) × (set ≡ only_on s)) }
{
    is_whole(set);
    let first = set.next_from(0);
    if first == 64 {
        return None;
    }
    if set.next_from(first + 1) < 64 {
        return None;
    }
    Some(Square::known(first))
}

/// The set, with this square if `more` says so.
pub fn with_if(set: SquareSet, s: Square, more: bool) -> SquareSet
    ensures { result ≡ cond more (slice_set set s true) set }
{
    if more { set.with(s) } else { set }
}

/// The squares that pass the test.
pub fn squares_that<F: Fn(Square) -> bool>(test: F) -> SquareSet
    requires { F.IsAlwaysCallable test }
    ensures { (p : ℕ → Bool) → ((s : ℕ) (b : Bool) → s < 64 → F.post test s b → b ≡ p s) → result ≡ squares_that p }
{
    let mut set = SquareSet::from_bits(0);
    for i in 0..64 {
        let s = Square::known(i);
        set = with_if(set, s, test(s));
    }
    set
}
