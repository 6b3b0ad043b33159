ghost use Rattle.std.specs.Prelude.{◌≡◌};
ghost use Rattle.board_base.specs.Board.{at};
ghost use Rattle.unmove_gen.specs.TakenBack.{unpromoted, captured_by, capture_square, rook_back, taken_back};

use board_base::{Board, Castle, Kind, Man, Square, Unmove};
use castle_history::{castle_of, home, target};

/// What a man was before his move.
fn unpromoted(promo: Option<Kind>, place: Option<Man>) -> Option<Man>
    ensures { result ≡ unpromoted promo place }
{
    match (promo, place) {
        (Some(_), Some(man)) => Some(Man {
            colour: man.colour,
            kind: Kind::Pawn,
        }),
        _ => place,
    }
}

/// The man that the man on the place captured.
fn captured_by(place: Option<Man>, kind: Option<Kind>) -> Option<Man>
    ensures { result ≡ captured_by place kind }
{
    match (place, kind) {
        (Some(man), Some(kind)) => Some(Man {
            colour: man.colour.other(),
            kind,
        }),
        _ => None,
    }
}

/// Where the captured man stood.
fn capture_square(u: &Unmove) -> Square
    ensures { result ≡ capture_square u.now }
{
    if u.ep {
        Square::known(8 * (u.mv.from.index() / 8) + u.mv.to.index() % 8)
    } else {
        u.mv.to
    }
}

/// The rook of the castling, if there is one, goes home.
fn rook_back(board: &mut Board, castle: Option<Castle>)
    ensures { board.new ≡ rook_back castle board.old }
{
    if let Some(castle) = castle {
        let (_, rook_home) = home(castle);
        let (_, rook_target) = target(castle);
        let rook = board.at(rook_target);
        board.put(rook_target, None);
        board.put(rook_home, rook);
    }
}

/// The board before the unmove's move.
#[tactic(auto, unfolding(crate::specs::TakenBack::taken_back))]
pub fn take_back(board: &Board, u: &Unmove) -> Board
    ensures { result ≡ taken_back board.now u.now }
{
    let mut before = *board;
    rook_back(&mut before, castle_of(u, board));
    let man = unpromoted(u.mv.promo, before.at(u.mv.to));
    before.put(u.mv.to, None);
    before.put(u.mv.from, man);
    before.put(
        capture_square(u),
        captured_by(board.at(u.mv.to), u.captured),
    );
    before
}
