ghost use Rattle.std.specs.Prelude.{◌≡◌};
ghost use Rattle.board_base.specs.Board.{same_colour};
ghost use Rattle.board_base.specs.Play.{side};
ghost use Rattle.board_base.specs.Rights.{holds};
ghost use Rattle.board_base.specs.Legal.{king_castles, man_moves, may_castle, may_go, pawn_captures, pawn_doubles, pawn_steps};

use crate::castlings::castling;
use crate::en_passant::pawn_captures_en_passant;
use board_base::{
    Board, Castle, CastleSet, Colour, Kind, Move, attacks_from, files_between, is_a, is_ahead,
    is_clear, is_of, is_the, pawn_rank, ranks_between,
};
use castle_history::{home, target};

#[tactic(auto, unfolding(board_base::specs::Legal::man_moves))]
fn man_moves(board: &Board, m: &Move) -> bool
    ensures { result ≡ man_moves board.now m.now }
{
    !is_a(Kind::Pawn, board.at(m.from)) && attacks_from(board, m.from, m.to)
}

#[tactic(auto, unfolding(board_base::specs::Legal::pawn_steps))]
fn pawn_steps(board: &Board, colour: Colour, m: &Move) -> bool
    ensures { result ≡ pawn_steps board.now colour m.now }
{
    is_a(Kind::Pawn, board.at(m.from))
        && is_ahead(colour, m.from, m.to)
        && m.from.file() == m.to.file()
        && board.at(m.to).is_none()
}

#[tactic(auto, unfolding(board_base::specs::Legal::pawn_doubles))]
pub fn pawn_doubles(board: &Board, colour: Colour, m: &Move) -> bool
    ensures { result ≡ pawn_doubles board.now colour m.now }
{
    is_a(Kind::Pawn, board.at(m.from))
        && m.from.rank() == pawn_rank(colour)
        && m.from.file() == m.to.file()
        && ranks_between(m.from, m.to) == 2
        && is_clear(board, m.from, m.to)
        && board.at(m.to).is_none()
}

#[tactic(auto, unfolding(board_base::specs::Legal::pawn_captures))]
fn pawn_captures(board: &Board, colour: Colour, m: &Move) -> bool
    ensures { result ≡ pawn_captures board.now colour m.now }
{
    is_a(Kind::Pawn, board.at(m.from))
        && is_ahead(colour, m.from, m.to)
        && files_between(m.from, m.to) == 1
        && is_of(colour.other(), board.at(m.to))
}

/// The castling is one of this colour's.
fn is_side_of(colour: Colour, castle: Castle) -> bool
    ensures { result ≡ same_colour colour (side castle) }
{
    colour == castle.side()
}

fn may_castle(board: &Board, colour: Colour, rights: CastleSet, castle: Castle) -> bool
    ensures { result ≡ may_castle board.now colour (λ x. holds rights x) castle }
{
    let (king, rook) = home(castle);
    let (king_target, crossed) = target(castle);
    let enemy = colour.other();
    is_side_of(colour, castle)
        && rights.has(castle)
        && is_the(colour, Kind::King, board.at(king))
        && is_the(colour, Kind::Rook, board.at(rook))
        && is_clear(board, king, rook)
        && !board.attacked(king, enemy)
        && !board.attacked(crossed, enemy)
        && !board.attacked(king_target, enemy)
}

#[tactic(auto, unfolding(board_base::specs::Legal::king_castles))]
fn king_castles(board: &Board, colour: Colour, rights: CastleSet, m: &Move) -> bool
    ensures { result ≡ king_castles board.now colour (λ x. holds rights x) m.now }
{
    match castling(board, m) {
        Some(castle) => may_castle(board, colour, rights, castle),
        None => false,
    }
}

/// Whether the man on the move's origin may go so, with these rights and this last move, by his own way, as a pawn or by castling (articles
/// 3.2 to 3.8), whoever stands on the target and whether or not a king is left attacked.
#[tactic(auto, unfolding(board_base::specs::Legal::may_go))]
pub fn may_go(
    board: &Board,
    colour: Colour,
    rights: CastleSet,
    last: &Option<Move>,
    m: &Move,
) -> bool
    ensures { result ≡ may_go board.now colour (λ x. holds rights x) last.now m.now }
{
    man_moves(board, m)
        || pawn_steps(board, colour, m)
        || pawn_doubles(board, colour, m)
        || pawn_captures(board, colour, m)
        || pawn_captures_en_passant(board, colour, last, m)
        || king_castles(board, colour, rights, m)
}
