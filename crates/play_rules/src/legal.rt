ghost use Rattle.std.specs.Prelude.{◌≡◌, ◌&&◌, Bool, List, nat_lt, not};
ghost use Rattle.board_base.specs.Board.{at, is_a, is_of};
ghost use Rattle.board_base.specs.Rights.{holds};
ghost use Rattle.board_base.specs.Legal.{is_officer, legal_on, promotion_fits};
ghost use Rattle.board_base.specs.Game.{IsGame, legal_after};
ghost use Rattle.play_rules.specs.States.{legal_at, StandsFor};
ghost use Rattle.board_base.specs.declared.moves.Move.{Move as AMove};
ghost use Rattle.board_base.specs.declared.men.Kind.TheVariants.{King};

use crate::en_passant::step_over;
use crate::king_boards::KingBoard;
use crate::manners::may_go;
use crate::moving::play;
use crate::states::State;
use board_base::{Board, CastleSet, Colour, Kind, Move, is_a, is_of, last_rank};

fn is_officer(kind: Kind) -> bool
    ensures { result ≡ is_officer kind }
{
    kind == Kind::Queen || kind == Kind::Rook || kind == Kind::Bishop || kind == Kind::Knight
}

/// Whether the move promotes if and only if its man is a pawn of this side that reaches its last rank, and to an officer (article 3.7).
#[tactic(auto, unfolding(board_base::specs::Legal::promotion_fits))]
pub fn promotion_fits(board: &Board, colour: Colour, m: &Move) -> bool
    ensures { result ≡ promotion_fits board.now colour m.now }
{
    let reaches = is_a(Kind::Pawn, board.at(m.from)) && m.to.rank() == last_rank(colour);
    match m.promo {
        None => !reaches,
        Some(kind) => reaches && is_officer(kind),
    }
}

/// A man of the mover's stands on the origin, and neither another nor a king on the target.
fn ends_fit(board: &Board, colour: Colour, m: &Move) -> bool
    ensures { result ≡ (nat_lt m.now.to 64 && is_of colour (at board.now m.now.from) && not (is_of colour (at board.now m.now.to)) && not (is_a King (at board.now m.now.to))) }
{
    m.to.index() < 64
        && is_of(colour, board.at(m.from))
        && !is_of(colour, board.at(m.to))
        && !is_a(Kind::King, board.at(m.to))
}

#[tactic(auto, unfolding(board_base::specs::Legal::legal_on))]
fn legal_on(
    king_board: &KingBoard,
    colour: Colour,
    rights: CastleSet,
    last: &Option<Move>,
    m: &Move,
) -> bool
    ensures { result ≡ legal_on king_board.now colour (λ x. holds rights x) last.now m.now }
{
    let board = king_board.board();
    ends_fit(board, colour, m)
        && promotion_fits(board, colour, m)
        && may_go(board, colour, rights, last, m)
        && !play(king_board, m).in_check(colour)
}

/// Whether the move is legal in this state (articles 3.1 to 3.9). Of the moves before, the state
/// keeps the castling rights and the square that a double step has just crossed, if any. So in a
/// state that stands for a game this is whether the move is legal after that game.
pub fn is_legal(state: &State, m: &Move) -> bool
    ensures here { result ≡ legal_at state.now m.now }
    ensures in_games { (o : List Bool) (g : List AMove) → IsGame o g → StandsFor state.now o g → result ≡ legal_after o g m.now }
{
    legal_on(
        state.king_board(),
        state.turn(),
        state.rights(),
        &step_over(state.ep(), state.turn()),
        m,
    )
}
