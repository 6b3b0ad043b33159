ghost use Rattle.std.specs.Prelude.{◌≡◌, ◌&&◌, ◌==◌, ◌<◌, ◌≤◌, None, is_none};
ghost use Rattle.board_base.specs.Board.{rank};
ghost use Rattle.board_base.specs.Attacks.{files_apart, one_ahead};
ghost use Rattle.board_base.specs.Play.{double_of, double_over, en_passant_rank};

use board_base::{Colour, Move, Square, files_between, is_ahead};

/// The rank from which a pawn of this side captures en passant, counted from 0.
fn en_passant_rank(side: Colour) -> u8
    ensures { result ≡ en_passant_rank side }
{
    match side {
        Colour::White => 4,
        Colour::Black => 3,
    }
}

/// The double step over this square by the opponent of `side` (article 3.7.2): from the square after it to the square before it,
/// as `side` sees them. The square is on none of the ranks 1 and 8.
pub fn double_over(crossed: Square, side: Colour) -> Move
    requires low { 8 ≤ crossed }
    requires high { crossed < 56 }
    ensures { result ≡ double_over crossed side }
{
    let above = Square::known(crossed.index() + 8);
    let below = Square::known(crossed.index() - 8);
    let (from, to) = match side {
        Colour::White => (above, below),
        Colour::Black => (below, above),
    };
    Move {
        from,
        to,
        promo: None,
    }
}

fn may_capture_en_passant(m: &Move, side: Colour) -> bool
    ensures { result ≡ ((rank m.now.from == en_passant_rank side) && one_ahead side m.now.from m.now.to && (files_apart m.now.from m.now.to == 1) && is_none m.now.promo) }
{
    m.from.rank() == en_passant_rank(side)
        && is_ahead(side, m.from, m.to)
        && files_between(m.from, m.to) == 1
        && m.promo.is_none()
}

/// The double step of the opponent that a capture en passant by `side` answers (article 3.7.3.1), as d7d5 for e5d6 by White. None
/// if and only if the move isn't one square diagonally forward, from rank 5 to rank 6 for White, from rank 4 to rank 3 for Black,
/// without promotion.
pub fn double_of(m: &Move, side: Colour) -> Option<Move>
    ensures { result ≡ double_of m.now side }
{
    if may_capture_en_passant(m, side) {
        Some(double_over(m.to, side))
    } else {
        None
    }
}
