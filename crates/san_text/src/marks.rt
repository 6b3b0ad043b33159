ghost use Rattle.std.specs.Prelude.{◌≡◌};
ghost use Rattle.std.specs.List.{list_any};
ghost use Rattle.play_rules.specs.States.{legal_at};
ghost use Rattle.play_rules.specs.Listed.{moves_between};
ghost use Rattle.san_text.specs.Spelling.{has_move, has_move_from, mark_of};

use board_base::{Kind, Move, Square};
use play_rules::{State, in_check, is_legal};

/// What a spelling ends with.
#[derive(Clone, Copy)]
pub enum Mark {
    /// Nothing.
    Quiet,
    /// `+`.
    Check,
    /// `#`.
    Mate,
}

fn is_legal_as(state: &State, from: Square, to: Square, promo: Option<Kind>) -> bool
    ensures { result ≡ legal_at state.now (record { from = from; to = to; promo = promo }) }
{
    is_legal(state, &Move { from, to, promo })
}

#[tactic(auto, unfolding(play_rules::specs::Listed::moves_between))]
fn has_move_between(state: &State, from: Square, to: Square) -> bool
    ensures { result ≡ list_any (legal_at state.now) (moves_between from to) }
{
    is_legal_as(state, from, to, None)
        || is_legal_as(state, from, to, Some(Kind::Knight))
        || is_legal_as(state, from, to, Some(Kind::Bishop))
        || is_legal_as(state, from, to, Some(Kind::Rook))
        || is_legal_as(state, from, to, Some(Kind::Queen))
}

fn has_move_from(state: &State, from: Square) -> bool
    ensures { result ≡ has_move_from state.now from }
{
    for i in 0..64 {
        if has_move_between(state, from, Square::known(i)) {
            return true;
        }
    }
    false
}

/// The side to move has a legal move.
fn has_move(state: &State) -> bool
    ensures { result ≡ has_move state.now }
{
    for i in 0..64 {
        if has_move_from(state, Square::known(i)) {
            return true;
        }
    }
    false
}

/// What the spelling of the move that led to this state ends with.
#[tactic(auto, unfolding(crate::specs::Spelling::mark_of))]
pub fn mark_of(state: &State) -> Mark
    ensures { result ≡ mark_of state.now }
{
    if !in_check(state.board(), state.turn()) {
        Mark::Quiet
    } else if has_move(state) {
        Mark::Check
    } else {
        Mark::Mate
    }
}
