ghost use Rattle.std.specs.Prelude.{◌≡◌, ◌+◌, ◌*◌, ◌≤◌, ◌<◌, ◌^◌, ◌++◌, ◌∷◌, [], IfOk, IsTrue, List, OnOk};
ghost use Rattle.board_base.specs.Board.{no_odds};
ghost use Rattle.board_base.specs.Game.{IsGame};
ghost use Rattle.board_base.specs.declared.moves.Move.{Move as AMove};
ghost use Rattle.play_rules.specs.States.{legal_at, StandsFor};
ghost use Rattle.position_maker.specs.Draws.{games_of, goes_on};
ghost use Rattle.position_maker.specs.Samples.{AreMissingInAll, plies_of, unmoves_along, unmoves_of_all};
ghost use Rattle.position_maker.specs.Counted.{Counts};

use crate::draws::{next, place};
use crate::laws::no_move_is_missing;
use crate::positions::{count_unmoves, query_after, unmove_after};
use crate::tallies::Tally;
use board_base::{Memory, Move};
use play_rules::{State, legal_moves, step};
use std::alloc::Global;
use unmove_gen::{is_unmove, last_moves_are_listed};

/// What was counted of the games that were made.
#[derive(Clone, Copy, PartialEq, Eq, Debug)]
pub struct Summary {
    /// How many games there are.
    pub games: u32,
    /// How many moves they have.
    pub plies: u32,
    /// How many unmoves the positions have, one after each move.
    pub unmoves: u64,
    /// How many of the moves aren't among the unmoves of the position after them.
    pub missing: u32,
}

/// Plays the legal move, and counts the unmoves of the position after it. Whether the move just played is among them is asked too.
fn visit(state: &State, m: &Move, tally: &mut Tally) -> State
    requires legal { IsTrue (legal_at state.now m.now) }
    requires plies { tally.old.plies + 1 < 2 ^ 32 }
    requires unmoves { tally.old.unmoves + 143360 < 2 ^ 64 }
    requires missing { tally.old.missing ≡ 0 }
    ensures here { (g : List AMove) → IsGame no_odds g → StandsFor state.now no_odds g → IsGame no_odds (g ++ m.now ∷ []) × StandsFor result no_odds (g ++ m.now ∷ []) }
    ensures counted { (g : List AMove) → IsGame no_odds g → StandsFor state.now no_odds g → (tally.new.number ≡ tally.old.number) × (tally.new.plies ≡ tally.old.plies + 1) × (tally.new.unmoves ≡ tally.old.unmoves + unmoves_along g (m.now ∷ [])) × (tally.new.missing ≡ tally.old.missing) }
    ensures few { tally.new.unmoves ≤ tally.old.unmoves + 143360 }
{
    last_moves_are_listed();
    let next = step(state, m).unwrap();
    let query = query_after(state, m, &next);
    tally.plies += 1;
    tally.unmoves += count_unmoves(&query);
    if !is_unmove(&query, &unmove_after(state, m)) {
        tally.missing += 1;
    }
    next
}

/// Makes a game of at most so many moves, and counts on.
fn sample_game(alloc: Global, plies: u32, tally: &mut Tally) -> Result<(), Memory>
    requires plies { tally.old.plies + plies < 2 ^ 32 }
    requires unmoves { tally.old.unmoves + 143360 * plies < 2 ^ 64 }
    requires missing { tally.old.missing ≡ 0 }
    ensures counted { OnOk result (Counts [] (goes_on plies tally.old.number []) tally.old tally.new) }
    ensures few { OnOk result ((tally.new.plies ≤ tally.old.plies + plies) × (tally.new.unmoves ≤ tally.old.unmoves + 143360 * plies)) }
{
    let mut state = State::start();
    for _ in 0..plies {
        let moves = legal_moves(alloc, &state)?;
        if moves.is_empty() {
            return Ok(());
        }
        tally.number = next(tally.number);
        let m = moves[place(tally.number, moves.len())];
        state = visit(&state, &m, tally);
    }
    Ok(())
}

/// Makes games from a number, takes the retractions of each of their positions, and counts.
///
/// Each game begins at the initial array, and goes on by a move that is drawn from the legal moves in order, up to so many moves or
/// until there is none. To draw, a number becomes 6364136223846793005 times itself plus 1442695040888963407, modulo 2^64; it starts
/// from `start`, and is kept from game to game. Its value without its lowest 33 bits, modulo the number of moves, is the place drawn.
/// After each move the query of the position is taken: its board and turn, no odds, all rights that the game still has, and the last
/// move if it was a pawn's double step. Want of memory is a free answer: `Err` may take the place of the counts.
pub fn sample(alloc: Global, start: u64, games: u32, plies: u32) -> Result<Summary, Memory>
    requires games { (1 ≤ games) × (games ≤ 1000) }
    requires plies { (1 ≤ plies) × (plies ≤ 200) }
    ensures games { IfOk result (λ s. s.games ≡ games) }
    ensures plies { IfOk result (λ s. s.plies ≡ plies_of (games_of plies games start)) }
    ensures unmoves { IfOk result (λ s. s.unmoves ≡ unmoves_of_all (games_of plies games start)) }
    ensures missing { IfOk result (λ s. AreMissingInAll (games_of plies games start) s.missing) }
    ensures none_missing { IfOk result (λ s. s.missing ≡ 0) }
{
    no_move_is_missing();
    let mut tally = Tally {
        number: start,
        plies: 0,
        unmoves: 0,
        missing: 0,
    };
    for _ in 0..games {
        sample_game(alloc, plies, &mut tally)?;
    }
    Ok(Summary {
        games,
        plies: tally.plies,
        unmoves: tally.unmoves,
        missing: tally.missing,
    })
}
