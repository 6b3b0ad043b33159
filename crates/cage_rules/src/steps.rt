ghost use Rattle.std.specs.Prelude.{◌≡◌, ◌<◌, ◌≤◌, ◌||◌, ◌&&◌, ◌==◌};
ghost use Rattle.cage_rules.specs.Frozen.{is_behind};
ghost use Rattle.cage_rules.specs.Steps.{is_ahead, is_diagonal_step, is_knight_step, is_line_step, is_step, near};
ghost use Rattle.cage_rules.specs.SetSteps.{down, is_across, is_along, is_strike, left, right, up};

use crate::sets::either;
use board_base::{Colour, Kind, SquareSet};

/// The first file, a square of each rank.
const FILE: u64 = 0x0101_0101_0101_0101;

/// The squares so many files to the right of those of the set.
fn right(set: SquareSet, files: u8) -> SquareSet
    requires { files < 8 }
    ensures { result ≡ right set files }
{
    let reached = FILE * (0x100 - (1 << files));
    SquareSet::from_bits(set.bits() << files & reached)
}

/// The squares so many files to the left of those of the set.
fn left(set: SquareSet, files: u8) -> SquareSet
    requires { files < 8 }
    ensures { result ≡ left set files }
{
    let reached = FILE * (0xff >> files);
    SquareSet::from_bits(set.bits() >> files & reached)
}

/// The squares so many ranks above those of the set.
fn up(set: SquareSet, ranks: u8) -> SquareSet
    requires { ranks < 8 }
    ensures { result ≡ up set ranks }
{
    SquareSet::from_bits(set.bits() << 8 * ranks)
}

/// The squares so many ranks below those of the set.
fn down(set: SquareSet, ranks: u8) -> SquareSet
    requires { ranks < 8 }
    ensures { result ≡ down set ranks }
{
    SquareSet::from_bits(set.bits() >> 8 * ranks)
}

/// The squares so many files beside those of the set.
fn across(set: SquareSet, files: u8) -> SquareSet
    requires few { files < 8 }
    requires some { 1 ≤ files }
    ensures { result ≡ near (is_across files) set }
{
    either(right(set, files), left(set, files))
}

/// The squares so many ranks above or below those of the set.
fn along(set: SquareSet, ranks: u8) -> SquareSet
    requires few { ranks < 8 }
    requires some { 1 ≤ ranks }
    ensures { result ≡ near (is_along ranks) set }
{
    either(up(set, ranks), down(set, ranks))
}

/// The squares a rank ahead of those of the set, as pawns of this colour go.
pub fn ahead(colour: Colour, set: SquareSet) -> SquareSet
    ensures { result ≡ near (is_ahead colour) set }
{
    match colour {
        Colour::White => up(set, 1),
        Colour::Black => down(set, 1),
    }
}

/// The squares one step along a line from those of the set.
pub(crate) fn line_steps(set: SquareSet) -> SquareSet
    ensures { result ≡ near is_line_step set }
{
    either(across(set, 1), along(set, 1))
}

/// The squares one step along a diagonal from those of the set.
pub(crate) fn diagonal_steps(set: SquareSet) -> SquareSet
    ensures { result ≡ near is_diagonal_step set }
{
    along(across(set, 1), 1)
}

/// The squares a knight's move from those of the set.
pub(crate) fn knight_steps(set: SquareSet) -> SquareSet
    ensures { result ≡ near is_knight_step set }
{
    either(along(across(set, 1), 2), along(across(set, 2), 1))
}

/// The squares that have one of the set behind them or diagonally behind them, as pawns of this colour go.
pub fn pawn_steps(colour: Colour, set: SquareSet) -> SquareSet
    ensures { result ≡ near (is_behind colour) set }
{
    ahead(colour, either(set, across(set, 1)))
}

/// The squares on which pawns of this colour capture from those of the set (article 3.7.3).
pub(crate) fn pawn_strikes(colour: Colour, set: SquareSet) -> SquareSet
    ensures { result ≡ near (is_strike colour) set }
{
    ahead(colour, across(set, 1))
}

/// The squares one step from those of the set, as the moves of this piece are made of steps. A pawn has none.
#[tactic(auto, unfolding(crate::specs::Steps::is_step))]
pub fn piece_steps(kind: Kind, set: SquareSet) -> SquareSet
    ensures { result ≡ near (is_step kind) set }
{
    match kind {
        Kind::Knight => knight_steps(set),
        Kind::Bishop => diagonal_steps(set),
        Kind::Rook => line_steps(set),
        Kind::Queen | Kind::King => either(line_steps(set), diagonal_steps(set)),
        Kind::Pawn => SquareSet::from_bits(0),
    }
}
