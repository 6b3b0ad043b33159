ghost use Rattle.std.specs.Prelude.{◌≡◌, ◌≤◌, ◌<◌, ◌+◌, ◌++◌, [], ◌∷◌, cond, length, map, nat_lt};
ghost use Rattle.std.specs.List.{filter};
ghost use Rattle.board_base.specs.Play.{all_castles};
ghost use Rattle.castle_history.specs.Homes.{are_at_home};
ghost use Rattle.ep_history.specs.Fits.{ep_fits};
ghost use Rattle.codex_verdict.specs.Rights.{AreRights};
ghost use Rattle.codex_verdict.specs.Candidates.{captures_from, captures_of, first_origin, first_target};
ghost use Rattle.codex_verdict.specs.declared.kinds.Right.TheVariants.{Castling, EnPassant};

use crate::kinds::Right;
use arrayvec::ArrayVec;
use board_base::{Board, Castle, Colour, Move, Square};
use castle_history::are_at_home;
use ep_history::ep_fits;
use query_base::Query;

fn add_castling(board: &Board, castle: Castle, rights: &mut ArrayVec<Right, 18>)
    requires { length rights.old.items < 18 }
    ensures added { rights.new.items ≡ rights.old.items ++ map (λ x. Castling x) (filter (are_at_home board.now) (castle ∷ [])) }
    ensures few { length rights.new.items ≤ length rights.old.items + 1 }
{
    if are_at_home(board, castle) {
        rights.push(Right::Castling(castle));
    }
}

/// The castlings whose king and rook stand at home.
fn castlings(board: &Board) -> ArrayVec<Right, 18>
    ensures all { result.items ≡ map (λ x. Castling x) (filter (are_at_home board.now) all_castles) }
    ensures few { length result.items ≤ 4 }
{
    let mut rights = ArrayVec::new();
    add_castling(board, Castle::WhiteShort, &mut rights);
    add_castling(board, Castle::WhiteLong, &mut rights);
    add_castling(board, Castle::BlackShort, &mut rights);
    add_castling(board, Castle::BlackLong, &mut rights);
    rights
}

fn add_capture(board: &Board, turn: Colour, from: u8, to: u8, rights: &mut ArrayVec<Right, 18>)
    requires room { length rights.old.items < 18 }
    requires on_board { from < 64 }
    requires target_on_board { to < 64 }
    ensures added { rights.new.items ≡ rights.old.items ++ map (λ m. EnPassant m) (filter (ep_fits board.now turn) (record { from = from; to = to; promo = None } ∷ [])) }
    ensures few { length rights.new.items ≤ length rights.old.items + 1 }
{
    let m = Move {
        from: Square::known(from),
        to: Square::known(to),
        promo: None,
    };
    if ep_fits(board, turn, &m) {
        rights.push(Right::EnPassant(m));
    }
}

/// The first square of the rank from which a side captures en passant (article 3.7.3.1), and of the rank to which it does.
fn first_squares(side: Colour) -> (u8, u8)
    ensures origin { result.0 ≡ first_origin side }
    ensures target { result.1 ≡ first_target side }
{
    match side {
        Colour::White => (32, 40),
        Colour::Black => (24, 16),
    }
}

/// The captures en passant by the pawn on this file, to the file before it first.
fn add_captures(board: &Board, turn: Colour, file: u8, rights: &mut ArrayVec<Right, 18>)
    requires file { file < 8 }
    requires room { length rights.old.items + cond (nat_lt 0 file) 1 0 + cond (nat_lt file 7) 1 0 ≤ 18 }
    ensures added { rights.new.items ≡ rights.old.items ++ map (λ m. EnPassant m) (filter (ep_fits board.now turn) (captures_from turn file)) }
    ensures few { length rights.new.items ≤ length rights.old.items + cond (nat_lt 0 file) 1 0 + cond (nat_lt file 7) 1 0 }
{
    let (origin, target) = first_squares(turn);
    if 0 < file {
        add_capture(board, turn, origin + file, target + file - 1, rights);
    }
    if file < 7 {
        add_capture(board, turn, origin + file, target + file + 1, rights);
    }
}

/// The rights that the position seems to give: the castlings K, Q, k and q, in this order, whose king and rook stand at home (article
/// 3.8.2); then, by the order of moves, the captures en passant by the side to move that the board admits (article 3.7.3), whatever
/// was the last move. There are at most four and fourteen.
pub fn rights(query: &Query) -> ArrayVec<Right, 18>
    ensures { AreRights query.now.board query.now.turn result.items }
{
    let mut rights = castlings(&query.board);
    for file in 0..8u8 {
        add_captures(&query.board, query.turn, file, &mut rights);
    }
    rights
}
