ghost use Rattle.std.specs.Prelude.{◌≡◌, ◌&&◌, ◌==◌};
ghost use Rattle.board_base.specs.Attacks.{king_distance};
ghost use Rattle.board_base.specs.Board.{at, is_of};
ghost use Rattle.check_origins.specs.Near.{checks_nearby, is_near, is_near_checker};

use board_base::{
    Board, Colour, Kind, Man, Square, attacks_from, files_between, is_of, is_the, ranks_between,
};

/// The squares are next to each other.
#[tactic(auto, unfolding(board_base::specs::Attacks::king_distance))]
fn is_next(s: Square, k: Square) -> bool
    ensures { result ≡ (king_distance s k == 1) }
{
    files_between(s, k).max(ranks_between(s, k)) == 1
}

/// The man on one square is near the other: a knight or a pawn anywhere, a bishop, a rook or a queen next to it.
fn is_near(place: Option<Man>, s: Square, k: Square) -> bool
    ensures { result ≡ is_near place s k }
{
    match place {
        Some(man) => match man.kind {
            Kind::Pawn | Kind::Knight => true,
            Kind::Bishop | Kind::Rook | Kind::Queen => is_next(s, k),
            Kind::King => false,
        },
        None => false,
    }
}

/// The man on `s`, of the other side than this, attacks this side's king on `k`, and is near him.
fn checks_nearby(board: &Board, side: Colour, s: Square, k: Square) -> bool
    ensures { result ≡ checks_nearby board.now side s k }
{
    is_the(side, Kind::King, board.at(k))
        && is_of(side.other(), board.at(s))
        && attacks_from(board, s, k)
        && is_near(board.at(s), s, k)
}

/// The man on the square checks some king of this side from near.
#[tactic(auto, unfolding(crate::specs::Near::is_near_checker))]
pub fn is_near_checker(board: &Board, side: Colour, s: Square) -> bool
    ensures { result ≡ is_near_checker board.now side s }
{
    if !is_of(side.other(), board.at(s)) {
        return false;
    }
    for i in 0..64 {
        if checks_nearby(board, side, s, Square::known(i)) {
            return true;
        }
    }
    false
}
