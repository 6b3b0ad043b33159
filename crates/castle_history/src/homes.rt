ghost use Rattle.std.specs.Prelude.{◌≡◌, ◌↔◌, ◌||◌, not, IsTrue};
ghost use Rattle.board_base.specs.Play.{castling_from, crossed, king_home, king_target, rook_home};
ghost use Rattle.board_base.specs.Rights.{holds};
ghost use Rattle.board_base.specs.Game.{touches};
ghost use Rattle.castle_history.specs.Homes.{are_at_home, HaveHomes};

use board_base::{Board, Castle, CastleSet, Kind, Move, Square, is_the};

/// The squares on which the castling's king and its rook begin, in this order: e1 and h1 for K, e1 and a1 for Q, e8 and h8 for k,
/// e8 and a8 for q.
pub fn home(c: Castle) -> (Square, Square)
    ensures king { result.0 ≡ king_home c }
    ensures rook { result.1 ≡ rook_home c }
{
    let (king, rook) = match c {
        Castle::WhiteShort => (4, 7),
        Castle::WhiteLong => (4, 0),
        Castle::BlackShort => (60, 63),
        Castle::BlackLong => (60, 56),
    };
    (Square::known(king), Square::known(rook))
}

/// The squares to which the castling's king and its rook go, in this order: g1 and f1 for K, c1 and d1 for Q, g8 and f8 for k,
/// c8 and d8 for q. So the rook's is the square that the king crosses (article 3.8.2).
pub fn target(c: Castle) -> (Square, Square)
    ensures king { result.0 ≡ king_target c }
    ensures rook { result.1 ≡ crossed c }
{
    let (king, rook) = match c {
        Castle::WhiteShort => (6, 5),
        Castle::WhiteLong => (2, 3),
        Castle::BlackShort => (62, 61),
        Castle::BlackLong => (58, 59),
    };
    (Square::known(king), Square::known(rook))
}

/// The castling whose king goes from here to there; None if and only if no castling's king does (article 3.8.2).
pub fn castling_from(from: Square, to: Square) -> Option<Castle>
    ensures { result ≡ castling_from from to }
{
    match (from.index(), to.index()) {
        (4, 6) => Some(Castle::WhiteShort),
        (4, 2) => Some(Castle::WhiteLong),
        (60, 62) => Some(Castle::BlackShort),
        (60, 58) => Some(Castle::BlackLong),
        _ => None,
    }
}

/// Whether the move's origin or its target is the home of the castling's king or of its rook. In a game such a move loses the
/// right, whoever makes it (article 3.8.2.1).
pub fn touches(m: &Move, c: Castle) -> bool
    ensures { result ≡ touches m.now c }
{
    let (king, rook) = home(c);
    m.from == king || m.from == rook || m.to == king || m.to == rook
}

/// Whether the castling's king and rook, of its colour, stand at home (article 3.8.2).
pub fn are_at_home(board: &Board, castle: Castle) -> bool
    ensures { result ≡ are_at_home board.now castle }
{
    let (king, rook) = home(castle);
    let side = castle.side();
    is_the(side, Kind::King, board.at(king)) && is_the(side, Kind::Rook, board.at(rook))
}

/// The castling is not in the set, or its king and rook stand at home.
fn fits(board: &Board, held: CastleSet, castle: Castle) -> bool
    ensures { result ≡ (not (holds held castle) || are_at_home board.now castle) }
{
    !held.has(castle) || are_at_home(board, castle)
}

/// Whether each right of the set has its king and its rook, of its colour, at home (article 3.8.2.1). No game has a right where
/// one of them is missing.
pub fn held_fits(board: &Board, held: CastleSet) -> bool
    ensures { IsTrue result ↔ HaveHomes board.now held }
{
    [
        Castle::WhiteShort,
        Castle::WhiteLong,
        Castle::BlackShort,
        Castle::BlackLong,
    ]
    .iter()
    .all(|castle| fits(board, held, *castle))
}
