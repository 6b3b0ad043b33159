ghost use Rattle.std.specs.Prelude.{◌≡◌, ◌+◌, ◌*◌};
ghost use Rattle.board_base.specs.Board.{at, file, rank};
ghost use Rattle.board_base.specs.Play.{goes_en_passant, promoted, play};
ghost use Rattle.board_base.specs.Carry.{carry};

use crate::castlings::castling;
use crate::king_boards::KingBoard;
use board_base::{Board, Kind, Man, Move, Square, is_a};
use castle_history::{home, target};

/// What a man becomes.
fn promoted(promo: Option<Kind>, place: Option<Man>) -> Option<Man>
    ensures { result ≡ promoted promo place }
{
    match (promo, place) {
        (Some(kind), Some(man)) => Some(Man {
            colour: man.colour,
            kind,
        }),
        _ => place,
    }
}

/// The man on one square goes to another.
fn carry(board: &mut KingBoard, from: Square, to: Square, promo: Option<Kind>)
    ensures { board.new ≡ carry board.old from to promo }
{
    let man = promoted(promo, board.board().at(from));
    board.put(from, None);
    board.put(to, man);
}

/// Whether a pawn goes by the move to another file and an empty square, as en passant alone (article 3.7.3.1).
pub fn goes_en_passant(board: &Board, m: &Move) -> bool
    ensures { result ≡ goes_en_passant board.now m.now }
{
    is_a(Kind::Pawn, board.at(m.from)) && m.from.file() != m.to.file() && board.at(m.to).is_none()
}

/// The square on the target's file and the origin's rank, where a pawn captured en passant stands.
fn beside(from: Square, to: Square) -> Square
    ensures { result ≡ 8 * rank from + file to }
{
    Square::known(8 * from.rank() + to.file())
}

/// The board after a move.
#[tactic(auto, unfolding(board_base::specs::Play::play))]
pub fn play(board: &KingBoard, m: &Move) -> KingBoard
    ensures { result ≡ play board.now m.now }
{
    let mut next = *board;
    match castling(board.board(), m) {
        Some(castle) => {
            carry(&mut next, m.from, m.to, None);
            carry(&mut next, home(castle).1, target(castle).1, None);
        }
        None => {
            carry(&mut next, m.from, m.to, m.promo);
            if goes_en_passant(board.board(), m) {
                next.put(beside(m.from, m.to), None);
            }
        }
    }
    next
}
