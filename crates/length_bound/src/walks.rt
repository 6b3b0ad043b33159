ghost use Rattle.std.specs.Prelude.{Bool, false, ◌≡◌, ◌+◌, ◌<◌, ◌≤◌};
ghost use Rattle.board_base.specs.Board.{same_kind};
ghost use Rattle.board_base.specs.Attacks.{king_distance};
ghost use Rattle.board_base.specs.declared.men.Kind.TheVariants.{Pawn as APawn};
ghost use Rattle.length_bound.specs.DirectSteps.{direct_steps, is_corner, knight_steps};
ghost use Rattle.length_bound.specs.MoveCosts.{steps};

use board_base::{Kind, Square, files_between, is_diagonal, is_line, ranks_between};

/// Whether the square is a1, h1, a8 or h8.
fn is_corner(s: Square) -> bool
    ensures { result ≡ is_corner s }
{
    (s.file() == 0 || s.file() == 7) && (s.rank() == 0 || s.rank() == 7)
}

/// A knight's steps over so many files and ranks, the greater number first; `corner` says whether one of the squares is a corner.
fn knight_steps(corner: bool, more: u8, less: u8) -> u8
    requires more { more < 8 }
    requires less { less ≤ more }
    ensures { result ≡ knight_steps corner more less }
{
    if more == 1 && less == 0 {
        3
    } else if more == 2 && less == 2 {
        4
    } else if more == 1 && less == 1 && corner {
        4
    } else {
        let apart = more - less;
        if apart < less {
            apart + 2 * ((less - apart + 2) / 3)
        } else {
            apart - 2 * ((apart - less) / 4)
        }
    }
}

/// The steps of a man from one square to another on an empty board, by how far apart they are; 64 if he can't come there.
#[tactic(auto, unfolding(board_base::specs::Attacks::king_distance))]
fn direct_steps(kind: Kind, from: Square, to: Square) -> u8
    ensures { result ≡ direct_steps kind from to }
{
    let files = files_between(from, to);
    let ranks = ranks_between(from, to);
    match kind {
        Kind::King => files.max(ranks),
        Kind::Queen => {
            if from == to {
                0
            } else if is_line(from, to) || is_diagonal(from, to) {
                1
            } else {
                2
            }
        }
        Kind::Rook => {
            if from == to {
                0
            } else if is_line(from, to) {
                1
            } else {
                2
            }
        }
        Kind::Bishop => {
            if from == to {
                0
            } else if is_diagonal(from, to) {
                1
            } else if (files + ranks) % 2 == 0 {
                2
            } else {
                64
            }
        }
        Kind::Knight => knight_steps(
            is_corner(from) || is_corner(to),
            files.max(ranks),
            files.min(ranks),
        ),
        Kind::Pawn => 64,
    }
}

/// The least number of steps in which a man who is no pawn comes from one square to another on an empty board; 64 if he can't.
pub fn steps(kind: Kind, from: Square, to: Square) -> u8
    requires { same_kind APawn kind ≡ false }
    ensures value { result ≡ steps kind from to }
    ensures small { result ≤ 64 }
{
    direct_steps(kind, from, to)
}
