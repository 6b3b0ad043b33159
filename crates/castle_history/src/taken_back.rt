ghost use Rattle.std.specs.Prelude.{◌≡◌, ◌↔◌, IsNone, false};
ghost use Rattle.castle_history.specs.TakenBack.{castling_back, has_castled, of_side};

use crate::homes::castling_from;
use board_base::{Board, Castle, Colour, Kind, Unmove};

/// The castling, if it is one of this side.
fn of_side(side: Colour, castling: Option<Castle>) -> Option<Castle>
    ensures { result ≡ of_side side castling }
{
    match castling {
        Some(castle) if side == castle.side() => Some(castle),
        _ => None,
    }
}

/// The castling that the retraction takes back on this board; None if and only if the man on its target isn't a king, or the
/// retracted move isn't that king's of two squares along its rank from its own home, e1 for White and e8 for Black
/// (article 3.8.2).
pub fn castle_of(u: &Unmove, board: &Board) -> Option<Castle>
    ensures castling { result ≡ castling_back board.now u.now.mv }
    ensures none { IsNone result ↔ (has_castled board.now u.now.mv ≡ false) }
{
    match board.at(u.mv.to) {
        Some(man) if man.kind == Kind::King => {
            of_side(man.colour, castling_from(u.mv.from, u.mv.to))
        }
        _ => None,
    }
}
