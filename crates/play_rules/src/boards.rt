ghost use Rattle.std.specs.Prelude.{◌≡◌, ◌<◌, ◌&&◌, ◌↔◌, IsTrue};
ghost use Rattle.board_base.specs.Board.{at, is_a};
ghost use Rattle.board_base.specs.declared.men.Kind.TheVariants.{Pawn};
ghost use Rattle.play_rules.specs.Kings.{HasOneKingEach, kings};
ghost use Rattle.play_rules.specs.Laws.{HasNoPawnOnEnds, has_no_pawn_on_ends, is_end};

use board_base::{Board, Colour, Kind, Square, is_a, is_the};

fn count_kings(colour: Colour, board: &Board) -> u8
    ensures { result ≡ kings colour board.now }
{
    board.is_whole();
    let mut count = 0;
    for i in 0..64 {
        if is_the(colour, Kind::King, board.at(Square::known(i))) {
            count += 1;
        }
    }
    count
}

/// Whether each colour has exactly one king (article 2.2).
pub fn has_one_king_each(board: &Board) -> bool
    ensures { IsTrue result ↔ HasOneKingEach board.now }
{
    if count_kings(Colour::White, board) != 1 {
        return false;
    }
    count_kings(Colour::Black, board) == 1
}

/// Whether the square is on rank 1 or 8.
pub fn is_end(s: Square) -> bool
    ensures { result ≡ is_end s }
{
    s.rank() == 0 || s.rank() == 7
}

/// A pawn stands on the square, which is on rank 1 or 8.
fn is_pawn_on_end(board: &Board, index: u8) -> bool
    requires { index < 64 }
    ensures { result ≡ (is_end index && is_a Pawn (at board.now index)) }
{
    let s = Square::known(index);
    is_end(s) && is_a(Kind::Pawn, board.at(s))
}

/// Whether no pawn stands on rank 1 or rank 8 (article 3.7).
#[tactic(auto, unfolding(crate::specs::Laws::has_no_pawn_on_ends))]
pub fn has_no_pawn_on_ends(board: &Board) -> bool
    ensures answer { result ≡ has_no_pawn_on_ends board.now }
    ensures law { IsTrue result ↔ HasNoPawnOnEnds board.now }
{
    for i in 0..64 {
        if is_pawn_on_end(board, i) {
            return false;
        }
    }
    true
}
