//! Whether a game leads to a position.

ghost use Rattle.std.specs.Prelude.{◌≡◌, ◌↔◌, IfOk, IsTrue};
ghost use Rattle.query_base.specs.Reach.{Reaches};
ghost use Rattle.position_report.specs.Lengths.{LeadsHere};

use board_base::{Move, MoveList};
use play_rules::{State, step};
use query_base::{Query, matches_end};
use std::alloc::{AllocError, Global};

/// More moves than games in algebraic notation have room for.
const TOO_MANY: usize = 4_294_967_296;

/// The moves of a game.
pub(crate) fn moves_of(alloc: Global, game: &MoveList) -> Result<Vec<Move>, AllocError>
    ensures { IfOk result (λ moves. moves.items ≡ game.now) }
{
    let mut moves = Vec::new(alloc);
    for i in 0..game.len() {
        moves.push(game.get(i).unwrap())?;
    }
    Ok(moves)
}

/// Whether the game reaches the query.
fn reaches(query: &Query, moves: &[Move]) -> bool
    ensures { IsTrue result ↔ Reaches moves.now query.now }
{
    let mut state = State::start_of(query.odds);
    let mut last = None;
    for m in moves {
        match step(&state, m) {
            Ok(next) => state = next,
            Err(_) => return false,
        }
        last = Some(*m);
    }
    matches_end(&state, last, query)
}

/// Whether the game reaches the query, and algebraic notation has room for it.
pub(crate) fn leads_here(query: &Query, moves: &[Move]) -> bool
    ensures { IsTrue result ↔ LeadsHere moves.now query.now }
{
    moves.len() < TOO_MANY && reaches(query, moves)
}
