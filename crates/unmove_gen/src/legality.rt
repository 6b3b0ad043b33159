ghost use Rattle.std.specs.Prelude.{◌≡◌, ◌&&◌, cond};
ghost use Rattle.board_base.specs.Board.{at, is_a, is_empty, is_the, opponent};
ghost use Rattle.board_base.specs.declared.men.Kind.TheVariants.{Pawn};
ghost use Rattle.play_rules.specs.States.{legal_at};
ghost use Rattle.unmove_gen.specs.Listed.{answered, is_legal_before, is_listed, is_marked, is_retraction, leads_here, mover, took_pawn};

use crate::conditions::{fits_ends, obeys, obeys_clock};
use crate::sanity::is_sane;
use crate::taking_back::take_back;
use board_base::{Board, CastleSet, Colour, Kind, Move, Square, Unmove, is_a, is_the};
use ep_history::double_of;
use play_rules::{State, step};
use query_base::Query;

/// The double step that the move answered, if it is marked en passant.
pub fn answered(u: &Unmove, colour: Colour) -> Option<Move>
    ensures { result ≡ answered u.now colour }
{
    if u.ep { double_of(&u.mv, colour) } else { None }
}

/// The move is a capture en passant of a pawn that has just made this double step.
fn captures_en_passant(board: &Board, colour: Colour, u: &Unmove, double: &Move) -> bool
    ensures { result ≡ (is_a Pawn (at board.now u.now.mv.from) && is_empty (at board.now u.now.mv.to) && is_the (opponent colour) Pawn (at board.now double.now.to) && took_pawn u.now && is_empty (at board.now double.now.from)) }
{
    is_a(Kind::Pawn, board.at(u.mv.from))
        && board.at(u.mv.to).is_none()
        && is_the(colour.other(), Kind::Pawn, board.at(double.to))
        && u.captured == Some(Kind::Pawn)
        && board.at(double.from).is_none()
}

/// The unmove is marked en passant if and only if its move is such a capture.
fn is_marked(board: &Board, colour: Colour, u: &Unmove) -> bool
    ensures { result ≡ is_marked board.now colour u.now }
{
    if u.ep {
        match double_of(&u.mv, colour) {
            Some(double) => captures_en_passant(board, colour, u, &double),
            None => false,
        }
    } else {
        true
    }
}

/// The square that a double step has just crossed, if the move is marked en passant.
fn crossed(u: &Unmove) -> Option<Square>
    ensures { result ≡ cond u.now.ep (Some u.now.mv.to) None }
{
    if u.ep { Some(u.mv.to) } else { None }
}

/// The state before the move, in which every castling is allowed.
fn state_before(board: &Board, colour: Colour, u: &Unmove) -> State
    ensures legal { legal_at result u.now.mv ≡ is_legal_before board.now colour u.now }
    ensures board { result.board ≡ board.now }
{
    State::at(*board, colour, CastleSet::all(), crossed(u))
}

/// The move is legal on the board before it, and leads to the query's.
fn leads_here(query: &Query, board: &Board, u: &Unmove) -> bool
    ensures { result ≡ (is_legal_before board.now (mover query.now) u.now && leads_here board.now query.now u.now.mv) }
{
    match step(&state_before(board, query.turn.other(), u), &u.mv) {
        Ok(next) => next.board().is_same(&query.board),
        Err(_) => false,
    }
}

/// The unmove's move may have been the last, but for the clock.
#[tactic(auto, unfolding(crate::specs::Listed::is_retraction))]
pub fn is_retraction(query: &Query, u: &Unmove) -> bool
    ensures { result ≡ is_retraction query.now u.now }
{
    if !fits_ends(query, u) {
        return false;
    }
    if !obeys(query, &u.mv) {
        return false;
    }
    let before = take_back(&query.board, u);
    let mover = query.turn.other();
    is_marked(&before, mover, u)
        && leads_here(query, &before, u)
        && is_sane(&before, mover, query.odds)
}

/// The unmove is in the query's list.
#[tactic(auto, unfolding(crate::specs::Listed::is_listed))]
pub fn is_listed(query: &Query, u: &Unmove) -> bool
    ensures { result ≡ is_listed query.now u.now }
{
    is_retraction(query, u) && obeys_clock(query, u)
}
