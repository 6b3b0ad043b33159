ghost use Rattle.std.specs.Prelude.{◌≡◌, ◌<◌, ◌&&◌, ℕ};
ghost use Rattle.board_base.specs.Board.{file, is_in, rank};
ghost use Rattle.sketch_sets.specs.Shifts.{comes, comes_by, file_comes, goes_diagonally, goes_straight_on, hops, rank_comes, strikes};
ghost use Rattle.sketch_sets.specs.Tests.{some_that};

use board_base::{Change, Colour, Direction, SquareSet};
use figures::{both, either, outside};

/// The squares that aren't on file a, and those that aren't on file h.
const PAST_A: u64 = 0xfefe_fefe_fefe_fefe;

const BEFORE_H: u64 = 0x7f7f_7f7f_7f7f_7f7f;

/// The squares from which the file, changed so, comes to the set.
fn from_files(change: Change, set: SquareSet) -> SquareSet
    ensures { (e : ℕ) → e < 64 → is_in result e ≡ file_comes change set e }
{
    match change {
        Change::Falls => SquareSet::from_bits(set.bits() << 1 & PAST_A),
        Change::Stays => set,
        Change::Rises => SquareSet::from_bits(set.bits() >> 1 & BEFORE_H),
    }
}

/// The squares from which the rank, changed so, comes to the set.
fn from_ranks(change: Change, set: SquareSet) -> SquareSet
    ensures { (e : ℕ) → e < 64 → is_in result e ≡ rank_comes change set e }
{
    match change {
        Change::Falls => SquareSet::from_bits(set.bits() << 8),
        Change::Stays => set,
        Change::Rises => SquareSet::from_bits(set.bits() >> 8),
    }
}

/// The squares from which one step in this direction comes to the set.
pub(crate) fn shifted(direction: Direction, set: SquareSet) -> SquareSet
    ensures { (e : ℕ) → e < 64 → is_in result e ≡ comes direction set e }
{
    from_ranks(direction.ranks, from_files(direction.files, set))
}

/// The squares from which at most so many steps in this direction come to `to`, none but the last to a square of `fixed`.
fn ray(direction: Direction, to: SquareSet, fixed: SquareSet, steps: u8) -> SquareSet
    ensures { (e : ℕ) → e < 64 → is_in result e ≡ comes_by direction to fixed steps e }
{
    let mut from = SquareSet::from_bits(0);
    for _ in 0..steps {
        let past = both(from, outside(fixed));
        from = shifted(direction, either(to, past));
    }
    from
}

/// The squares from which at most so many steps along a line come to `to`, none but the last to a square of `fixed`.
pub(crate) fn straight_rays(to: SquareSet, fixed: SquareSet, steps: u8) -> SquareSet
    ensures { (e : ℕ) → e < 64 → is_in result e ≡ some_that to (goes_straight_on fixed steps e) }
{
    let [falls, stays, rises] = [Change::Falls, Change::Stays, Change::Rises];
    let down = ray(Direction::new(falls, stays), to, fixed, steps);
    let left = ray(Direction::new(stays, falls), to, fixed, steps);
    let right = ray(Direction::new(stays, rises), to, fixed, steps);
    let up = ray(Direction::new(rises, stays), to, fixed, steps);
    either(either(down, left), either(right, up))
}

/// The squares from which at most so many steps along a diagonal come to `to`, none but the last to a square of `fixed`.
pub(crate) fn diagonal_rays(to: SquareSet, fixed: SquareSet, steps: u8) -> SquareSet
    ensures { (e : ℕ) → e < 64 → is_in result e ≡ some_that to (goes_diagonally fixed steps e) }
{
    let [falls, rises] = [Change::Falls, Change::Rises];
    let down_left = ray(Direction::new(falls, falls), to, fixed, steps);
    let down_right = ray(Direction::new(falls, rises), to, fixed, steps);
    let up_left = ray(Direction::new(rises, falls), to, fixed, steps);
    let up_right = ray(Direction::new(rises, rises), to, fixed, steps);
    either(either(down_left, down_right), either(up_left, up_right))
}
