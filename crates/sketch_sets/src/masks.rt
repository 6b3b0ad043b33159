ghost use Rattle.std.specs.Prelude.{◌≡◌, ◌<◌, ◌==◌, ◌&&◌, ℕ, Bool, nat_lt, true};
ghost use Rattle.std.specs.List.{list_any, range_with_len};
ghost use Rattle.board_base.specs.Board.{file, is_in, rank};
ghost use Rattle.figures.specs.Sets.{squares_that};
ghost use Rattle.sketch_sets.specs.Homes.{is_inside};
ghost use Rattle.sketch_sets.specs.Tests.{meets};

use board_base::{Square, SquareSet};
use figures::{both, outside, with_if};

/// Whether each square of the first set is in the second.
pub fn is_within(a: SquareSet, b: SquareSet) -> bool
    ensures { result ≡ is_inside a b }
{
    both(a, outside(b)).bits() == 0
}

/// Whether some square is in both sets.
pub(crate) fn meets(a: SquareSet, b: SquareSet) -> bool
    ensures { result ≡ meets a b }
{
    both(a, b).bits() != 0
}

/// The squares of this file, counted from 0.
pub(crate) fn file_squares(n: u8) -> SquareSet
    requires { n < 8 }
    ensures { result ≡ squares_that (λ q. file q == n) }
{
    match n {
        0 => SquareSet::from_bits(0x0101_0101_0101_0101),
        1 => SquareSet::from_bits(0x0202_0202_0202_0202),
        2 => SquareSet::from_bits(0x0404_0404_0404_0404),
        3 => SquareSet::from_bits(0x0808_0808_0808_0808),
        4 => SquareSet::from_bits(0x1010_1010_1010_1010),
        5 => SquareSet::from_bits(0x2020_2020_2020_2020),
        6 => SquareSet::from_bits(0x4040_4040_4040_4040),
        _ => SquareSet::from_bits(0x8080_8080_8080_8080),
    }
}

/// Whether some square of the set is on this file, counted from 0.
pub fn has_file(set: SquareSet, n: u8) -> bool
    requires { n < 8 }
    ensures { result ≡ list_any (λ s. is_in set s && (file s == n)) (range_with_len 0 64) }
{
    meets(set, file_squares(n))
}

/// The squares of the ranks below this one, counted from 0.
pub(crate) fn ranks_below(n: u8) -> SquareSet
    requires { n < 8 }
    ensures { result ≡ squares_that (λ q. nat_lt (rank q) n) }
{
    match n {
        0 => SquareSet::from_bits(0),
        1 => SquareSet::from_bits(0xff),
        2 => SquareSet::from_bits(0xffff),
        3 => SquareSet::from_bits(0xff_ffff),
        4 => SquareSet::from_bits(0xffff_ffff),
        5 => SquareSet::from_bits(0xff_ffff_ffff),
        6 => SquareSet::from_bits(0xffff_ffff_ffff),
        _ => SquareSet::from_bits(0xff_ffff_ffff_ffff),
    }
}

/// The squares of the ranks above this one, counted from 0.
pub(crate) fn ranks_above(n: u8) -> SquareSet
    requires { n < 8 }
    ensures { result ≡ squares_that (λ q. nat_lt n (rank q)) }
{
    match n {
        0 => SquareSet::from_bits(0xffff_ffff_ffff_ff00),
        1 => SquareSet::from_bits(0xffff_ffff_ffff_0000),
        2 => SquareSet::from_bits(0xffff_ffff_ff00_0000),
        3 => SquareSet::from_bits(0xffff_ffff_0000_0000),
        4 => SquareSet::from_bits(0xffff_ff00_0000_0000),
        5 => SquareSet::from_bits(0xffff_0000_0000_0000),
        6 => SquareSet::from_bits(0xff00_0000_0000_0000),
        _ => SquareSet::from_bits(0),
    }
}

/// The squares of the set that pass the test.
pub fn those_that<F: Fn(Square) -> bool>(set: SquareSet, test: F) -> SquareSet
    requires { F.IsAlwaysCallable test }
    ensures { (p : ℕ → Bool) → ((s : ℕ) (b : Bool) → s < 64 → is_in set s ≡ true → F.post test s b → b ≡ p s) → result ≡ squares_that (λ s. is_in set s && p s) }
{
    let mut those = SquareSet::from_bits(0);
    let mut i = set.next_from(0);
    'squares: while i < 64 {
        let s = Square::known(i);
        those = with_if(those, s, test(s));
        i = set.next_from(i + 1);
    }
    those
}
