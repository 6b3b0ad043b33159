ghost use Rattle.std.specs.Prelude.{◌≡◌, ◌<◌, ◌^◌, length, IsTrue, MatchResult};
ghost use Rattle.play_rules.specs.States.{legal_at};
ghost use Rattle.san_text.specs.Spelling.{next};
ghost use Rattle.san_text.specs.Games.{ArePlayed};
ghost use Rattle.san_text.specs.Plies.{IsPlyFault, at_ply};

use crate::games::SanGameFault;
use crate::grammar::San;
use crate::reading::{SanFault, only};
use board_base::Move;
use play_rules::{State, step};
use std::alloc::Global;

/// The fault of a ply whose text is of the grammar.
fn at_ply(cause: SanFault, ply: u32) -> SanGameFault
    ensures { result ≡ at_ply cause ply }
{
    match cause {
        SanFault::Many => SanGameFault::Many { ply },
        _ => SanGameFault::NoMove { ply },
    }
}

/// The state after a legal move.
pub fn after(state: &State, m: &Move) -> State
    requires { IsTrue (legal_at state.now m.now) }
    ensures { result ≡ next state.now m.now }
{
    match step(state, m) {
        Ok(next) => next,
        Err(_) => *state,
    }
}

/// The moves that these name, one after another, from this state on.
pub fn played(alloc: Global, start: State, said: &[San]) -> Result<Vec<Move>, SanGameFault>
    requires { length said.now < 2 ^ 32 }
    ensures { MatchResult result (λ v. ArePlayed start said.now v.items) (λ e. IsPlyFault e start said.now) }
{
    let mut state = start;
    let mut moves = Vec::new(alloc);
    for (i, one) in said.iter().enumerate() {
        match only(&state, one) {
            Ok(m) => {
                if moves.push(m).is_err() {
                    return Err(SanGameFault::Memory);
                }
                state = after(&state, &m);
            }
            Err(cause) => {
                return Err(at_ply(cause, i as u32 + 1));
            }
        }
    }
    Ok(moves)
}
