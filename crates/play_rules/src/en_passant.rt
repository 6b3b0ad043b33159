ghost use Rattle.std.specs.Prelude.{◌≡◌};
ghost use Rattle.board_base.specs.Legal.{pawn_captures_en_passant};
ghost use Rattle.play_rules.specs.States.{crossing_rank, step_over};

use board_base::{Board, Colour, Kind, Move, Square, is_a, is_move, is_the};
use ep_history::{double_of, double_over};

fn crossing_rank(colour: Colour) -> u8
    ensures { result ≡ crossing_rank colour }
{
    match colour {
        Colour::White => 5,
        Colour::Black => 2,
    }
}

/// The double step of the side not to move that crossed this square, if one can have done so.
pub fn step_over(ep: Option<Square>, colour: Colour) -> Option<Move>
    ensures { result ≡ step_over ep colour }
{
    match ep {
        Some(crossed) => {
            if crossed.rank() == crossing_rank(colour) {
                Some(double_over(crossed, colour))
            } else {
                None
            }
        }
        None => None,
    }
}

#[tactic(auto, unfolding(board_base::specs::Legal::pawn_captures_en_passant))]
pub fn pawn_captures_en_passant(
    board: &Board,
    colour: Colour,
    last: &Option<Move>,
    m: &Move,
) -> bool
    ensures { result ≡ pawn_captures_en_passant board.now colour last.now m.now }
{
    if !is_a(Kind::Pawn, board.at(m.from)) || board.at(m.to).is_some() {
        return false;
    }
    match double_of(m, colour) {
        Some(double) => {
            is_move(last, &double) && is_the(colour.other(), Kind::Pawn, board.at(double.to))
        }
        None => false,
    }
}
