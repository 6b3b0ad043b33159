ghost use Rattle.std.specs.Prelude.{Bool, List, ◌≡◌, ◌<◌, ◌≤◌, ℕ, false, length, slice_set, true};
ghost use Rattle.board_base.specs.Board.{is_in};
ghost use Rattle.board_base.specs.Squares.{squares_of, number_of};
ghost use Rattle.board_base.specs.SameSets.{sets_decide};
ghost use Rattle.std.proofs.Common.{ap, rules};
ghost use Rattle.std.specs.Bool.{beq};
ghost use Rattle.std.specs.Cmp.Lexicographic.{pointwise};
ghost use Rattle.std.specs.Cmp.Rules.{comparing};
ghost use Rattle.std.specs.Hash as fed;

use crate::squares::Square;
use std::hash::{Hash, Hasher};
use std::marker::Model;

/// A set of squares, seen as its 64 truth values: the one at `s` says whether square `s` is in the set.
#[derive(Clone, Copy, Debug)]
pub struct SquareSet {
    bits: u64,
}

impl Model for SquareSet {
    ghost use Rattle.std.specs.Prelude.{List, Bool, ◌<◌, ◌^◌};
    ghost use Rattle.board_base.specs.Squares.{squares_of, number_of};
    ghost use Rattle.board_base.specs.SquareNumbers.{number_of-squares_of};

    ghost Value = { List Bool };

    ghost view = { λ set. squares_of set.bits };

    ghost invariant = { λ set. set.bits < 2 ^ 64 };

    ghost inverse = { λ set. record { bits = number_of set } };

    ghost inverse_ok = { λ set fits i. record { bits = number_of-squares_of set.bits fits i } };
}

impl PartialEq for SquareSet {
    ghost eq = { λ a b. pointwise beq a b };

    ghost laws = { Prim.search (comparing, rules) };

    fn eq(&self, other: &SquareSet) -> bool {
        self.bits == other.bits
    }
}

impl Eq for SquareSet {
    ghost laws = { Prim.search (comparing, rules) };
}

impl Hash for SquareSet {
    ghost hash_input = { λ set. fed.u64 (number_of set) };

    ghost respects_eq = { λ a b same. ap (λ (set : List Bool). fed.u64 (number_of set)) ((sets_decide a b).0 same) };

    fn hash<H: Hasher>(&self, state: &mut H) {
        self.bits.hash(state);
    }
}

impl SquareSet {
    /// The set of each square `s` whose bit `s` in `bits` is 1; bit 0, the lowest, stands for a1.
    pub fn from_bits(bits: u64) -> SquareSet
        ensures squares { result ≡ squares_of bits }
        ensures number { number_of result ≡ bits }
    {
        SquareSet { bits }
    }

    /// The number whose bit `s` is 1 if and only if square `s` is in the set.
    pub fn bits(self) -> u64
        ensures number { result ≡ number_of self }
        ensures squares { squares_of result ≡ self }
    {
        self.bits
    }

    /// Whether the square is in the set.
    pub fn has(self, s: Square) -> bool
        ensures member { result ≡ is_in self s }
        ensures size { length self ≡ 64 }
    {
        self.bits >> s.index() & 1 == 1
    }

    /// The set with this square added.
    pub fn with(self, s: Square) -> SquareSet
        ensures { result ≡ slice_set self s true }
    {
        SquareSet {
            bits: self.bits | 1 << s.index(),
        }
    }

    /// The set without this square.
    pub fn without(self, s: Square) -> SquareSet
        ensures { result ≡ slice_set self s false }
    {
        SquareSet {
            bits: self.bits & !(1 << s.index()),
        }
    }

    /// The first square of the set from this one on, or 64.
    pub fn next_from(self, start: u8) -> u8
        requires { start ≤ 64 }
        ensures high { start ≤ result }
        ensures low { result ≤ 64 }
        ensures none { (s : ℕ) → start ≤ s → s < result → is_in self s ≡ false }
        ensures found { result < 64 → is_in self result ≡ true }
    {
        if start > 63 {
            return 64;
        }
        let rest = self.bits >> start;
        if rest == 0 {
            64
        } else {
            start + rest.trailing_zeros() as u8
        }
    }
}
