ghost use Rattle.std.specs.Prelude.{Bool, false, ◌≡◌, ◌+◌, ◌<◌, ◌≤◌};
ghost use Rattle.board_base.specs.Board.{same_kind};
ghost use Rattle.board_base.specs.declared.men.Kind.TheVariants.{Pawn as APawn};
ghost use Rattle.length_bound.specs.MoveCosts.{cost_from, from_pawn, move_cost, pawn_moves, pawn_way, promoted_way, promotion_square};

use crate::walks::steps;
use board_base::{Colour, Kind, Man, Odds, Square, array_of, files_between};

/// The moves of a pawn over so many files, from one rank to another, higher as it sees them, with ranks from 0; 64 if it can't
/// go there.
fn pawn_moves(files: u8, low: u8, high: u8) -> u8
    requires files { files < 8 }
    requires low { low < 8 }
    requires high { high < 8 }
    ensures value { result ≡ pawn_moves files low high }
    ensures small { result ≤ 64 }
{
    if low + files <= high {
        if low + files + 2 <= high {
            high - low - 1
        } else {
            high - low
        }
    } else {
        64
    }
}

/// The moves of a pawn of this side from its home to a square; 64 if it can't go there.
#[tactic(auto, unfolding(crate::specs::MoveCosts::pawn_way))]
fn pawn_way(side: Colour, home: Square, s: Square) -> u8
    ensures value { result ≡ pawn_way side home s }
    ensures small { result ≤ 64 }
{
    let files = files_between(home, s);
    match side {
        Colour::White => pawn_moves(files, home.rank(), s.rank()),
        Colour::Black => pawn_moves(files, s.rank(), home.rank()),
    }
}

/// The square on this file, from 0 for a to 7 for h, on which a pawn of this side is promoted.
fn promotion_square(side: Colour, file: u8) -> Square
    requires { file < 8 }
    ensures { result ≡ promotion_square side file }
{
    match side {
        Colour::White => Square::known(56 + file),
        Colour::Black => Square::known(file),
    }
}

/// The least number of moves of a pawn from its home to a square of its promotion rank, and of the man whom it becomes there on to
/// a square, at most 64.
fn promoted_way(side: Colour, kind: Kind, home: Square, s: Square) -> u8
    requires { same_kind APawn kind ≡ false }
    ensures value { result ≡ promoted_way side kind home s }
    ensures small { result ≤ 64 }
{
    let mut least = 64;
    for file in 0..8 {
        let p = promotion_square(side, file);
        least = (pawn_way(side, home, p) + steps(kind, p, s)).min(least);
    }
    least
}

/// The moves of a man on a square who began as a pawn on this home; 64 if he can't have begun there.
fn from_pawn(man: Man, home: Square, s: Square) -> u8
    ensures value { result ≡ from_pawn man.kind man.colour home s }
    ensures small { result ≤ 64 }
{
    match man.kind {
        Kind::Pawn => pawn_way(man.colour, home, s),
        Kind::Knight => promoted_way(man.colour, Kind::Knight, home, s),
        Kind::Bishop => promoted_way(man.colour, Kind::Bishop, home, s),
        Kind::Rook => promoted_way(man.colour, Kind::Rook, home, s),
        Kind::Queen => promoted_way(man.colour, Kind::Queen, home, s),
        Kind::King => 64,
    }
}

/// The moves of a man on a square who began on a home where this man stood; 64 if he can't have begun there.
fn cost_from(first: Option<Man>, man: Man, s: Square, home: Square) -> u8
    ensures value { result ≡ cost_from first man s home }
    ensures small { result ≤ 64 }
{
    match first {
        None => 64,
        Some(first) => {
            if man.colour == first.colour {
                if Kind::Pawn == first.kind {
                    from_pawn(man, home, s)
                } else if first.kind == man.kind {
                    steps(man.kind, home, s)
                } else {
                    64
                }
            } else {
                64
            }
        }
    }
}

/// The least number of moves, castling aside, in which this man alone comes to a square from the home on which he began, in a game
/// at these odds; 64 if he can't have begun there, also because the man whose home it is was left out.
#[tactic(auto, unfolding(crate::specs::MoveCosts::move_cost))]
pub fn move_cost(odds: Odds, man: Man, s: Square, home: Square) -> u8
    ensures value { result ≡ move_cost odds man s home }
    ensures small { result ≤ 64 }
{
    cost_from(array_of(odds).at(home), man, s, home)
}
