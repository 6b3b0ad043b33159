ghost use Rattle.std.specs.Prelude.{◌≡◌, None, slice_set};
ghost use Rattle.board_base.specs.Attacks.{kind_attacks};
ghost use Rattle.unmove_gen.specs.Plain.{doubles, goes_to_empty, put_back, starts_on_end};

use crate::ways::ways_to;
use board_base::{
    Board, Colour, Kind, Man, Move, Square, is_a, is_ahead, is_clear, man_attacks, pawn_rank,
    ranks_between,
};
use play_rules::is_end;

/// The man on the move's target goes back to its origin, and this stands where he stood.
pub fn put_back(board: &Board, m: &Move, taken: Option<Man>) -> Board
    ensures { result ≡ put_back board.now m.now taken }
{
    let mut before = *board;
    before.put(m.to, None);
    before.put(m.from, board.at(m.to));
    before.put(m.to, taken);
    before
}

/// A pawn of this colour goes two squares ahead so.
fn doubles(board: &Board, colour: Colour, from: Square, to: Square) -> bool
    ensures { result ≡ doubles board.now colour from to }
{
    from.rank() == pawn_rank(colour)
        && from.file() == to.file()
        && ranks_between(from, to) == 2
        && is_clear(board, from, to)
}

/// The man goes so by his own way to a square that is empty.
pub fn goes_to_empty(board: &Board, man: Man, from: Square, to: Square) -> bool
    ensures { result ≡ goes_to_empty board.now man from to }
{
    match man.kind {
        Kind::Pawn => {
            (is_ahead(man.colour, from, to) && from.file() == to.file())
                || doubles(board, man.colour, from, to)
        }
        _ => man_attacks(board, man, from, to),
    }
}

/// With nobody on the move's target, the man on its origin attacks the square.
pub fn attacks_past(board: &Board, man: Man, m: &Move, s: Square) -> bool
    ensures { result ≡ kind_attacks (slice_set board.now m.now.to None) man.colour man.kind m.now.from s }
{
    m.from.index();
    if !ways_to(man.colour, man.kind, s).has(m.from) {
        return false;
    }
    let mut bare = *board;
    bare.put(m.to, None);
    man_attacks(&bare, man, m.from, s)
}

/// A pawn stands on the target, and the origin is on rank 1 or 8.
pub fn starts_on_end(board: &Board, m: &Move) -> bool
    ensures { result ≡ starts_on_end board.now m.now }
{
    is_a(Kind::Pawn, board.at(m.to)) && is_end(m.from)
}
