ghost use Rattle.std.specs.Prelude.{◌≡◌, IfOk, IfSome, true};
ghost use Rattle.query_base.specs.Reach.{EndsWith, Reaches};

use board_base::{Memory, Move, MoveList, is_move};
use play_rules::{State, step};
use query_base::{Query, matches_end};
use std::alloc::Global;

/// Whether the last move is the one that is demanded, if one is.
fn is_demanded(demanded: &Option<Move>, last: &Option<Move>) -> bool
    ensures { result ≡ true → IfSome demanded.now (λ m. last.now ≡ Some m) }
{
    match demanded {
        None => true,
        Some(m) => is_move(last, m),
    }
}

/// Plays the moves from the array at the query's odds: they are told if they are a game that reaches the query and, if a last move
/// is demanded, ends with it.
pub fn replay(
    alloc: Global,
    query: &Query,
    demanded: &Option<Move>,
    moves: &[Move],
) -> Result<Option<MoveList>, Memory>
    ensures reached { IfOk result (λ found. IfSome found (λ g. Reaches g query.now)) }
    ensures last { IfOk result (λ found. IfSome found (λ g. IfSome demanded.now (λ m. EndsWith g m))) }
    ensures same { IfOk result (λ found. IfSome found (λ g. g ≡ moves.now)) }
{
    let mut state = State::start_of(query.odds);
    let mut game = MoveList::new(alloc);
    let mut last = None;
    for m in moves {
        match step(&state, m) {
            Ok(next) => state = next,
            Err(_) => return Ok(None),
        }
        game.push(*m)?;
        last = Some(*m);
    }
    if matches_end(&state, last, query) && is_demanded(demanded, &last) {
        Ok(Some(game))
    } else {
        Ok(None)
    }
}
