ghost use Rattle.std.specs.Prelude.{◌<◌, ◌^◌, length, MatchResult};
ghost use Rattle.board_base.specs.Board.{no_odds};
ghost use Rattle.board_base.specs.Game.{IsGame};
ghost use Rattle.play_rules.specs.States.{StandsFor};
ghost use Rattle.game_text.specs.Replay.{FirstIllegal};

use board_base::{Move, Odds};
use play_rules::{State, step};

/// The list of moves isn't a game.
#[derive(Clone, Copy, PartialEq, Eq, Debug)]
pub struct IllegalAt {
    /// The first move that isn't legal after those before it, counted from 1.
    pub ply: u32,
}

/// The state after these moves, played from the initial array of article 2.3. `IllegalAt` comes
/// if and only if one of them isn't legal after those before it, and names the first. There is
/// room for fewer than 2^32 plies. Takes no memory.
pub fn replay(moves: &[Move]) -> Result<State, IllegalAt>
    requires { length moves.now < 2 ^ 32 }
    ensures { MatchResult result (λ s. IsGame no_odds moves.now × StandsFor s no_odds moves.now) (λ e. FirstIllegal no_odds moves.now e.ply) }
{
    replay_from(Odds::none(), moves)
}

/// The state after these moves, played at these odds: from the array without the men that are left
/// out. `IllegalAt` comes if and only if one of them isn't legal after those before it, and names the
/// first. There is room for fewer than 2^32 plies. Takes no memory.
pub fn replay_from(odds: Odds, moves: &[Move]) -> Result<State, IllegalAt>
    requires { length moves.now < 2 ^ 32 }
    ensures { MatchResult result (λ s. IsGame odds moves.now × StandsFor s odds moves.now) (λ e. FirstIllegal odds moves.now e.ply) }
{
    let mut state = State::start_of(odds);
    for (i, m) in moves.iter().enumerate() {
        match step(&state, m) {
            Ok(next) => state = next,
            Err(_) => {
                return Err(IllegalAt { ply: i as u32 + 1 });
            }
        }
    }
    Ok(state)
}
