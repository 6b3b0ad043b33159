//! Games whose every move is among the retractions of the position after it.

ghost use Rattle.query_base.specs.Asked.{IsShortClock};

use board_base::{Kind, Move, Odds, SquareSet, Unmove, is_a};
use game_text::read_game;
use play_rules::{State, step};
use query_base::Query;
use std::alloc::Global;
use unmove_gen::{is_unmove, pred};

/// Games that were played: Morphy's at the opera, Anderssen's immortal one, Byrne against Fischer in 1956, Gundersen against Faul
/// with a mate en passant, and the line of the Albin gambit in which a pawn becomes a knight.
const GAMES: [&[u8]; 5] = [
    b"e2e4 e7e5 g1f3 d7d6 d2d4 c8g4 d4e5 g4f3 d1f3 d6e5 f1c4 g8f6 f3b3 d8e7 b1c3 c7c6 c1g5 b7b5 c3b5 c6b5 c4b5 b8d7 e1c1 a8d8 d1d7 d8d7 h1d1 e7e6 b5d7 f6d7 b3b8 d7b8 d1d8",
    b"e2e4 e7e5 f2f4 e5f4 f1c4 d8h4 e1f1 b7b5 c4b5 g8f6 g1f3 h4h6 d2d3 f6h5 f3h4 h6g5 h4f5 c7c6 g2g4 h5f6 h1g1 c6b5 h2h4 g5g6 h4h5 g6g5 d1f3 f6g8 c1f4 g5f6 b1c3 f8c5 c3d5 f6b2 f4d6 c5g1 e4e5 b2a1 f1e2 b8a6 f5g7 e8d8 f3f6 g8f6 d6e7",
    b"g1f3 g8f6 c2c4 g7g6 b1c3 f8g7 d2d4 e8g8 c1f4 d7d5 d1b3 d5c4 b3c4 c7c6 e2e4 b8d7 a1d1 d7b6 c4c5 c8g4 f4g5 b6a4 c5a3 a4c3 b2c3 f6e4 g5e7 d8b6 f1c4 e4c3 e7c5 f8e8 e1f1 g4e6 c5b6 e6c4 f1g1 c3e2 g1f1 e2d4 f1g1 d4e2 g1f1 e2c3 f1g1 a7b6 a3b4 a8a4 b4b6 c3d1 h2h3 a4a2 g1h2 d1f2 h1e1 e8e1 b6d8 g7f8 f3e1 c4d5 e1f3 f2e4 d8b8 b7b5 h3h4 h7h5 f3e5 g8g7 h2g1 f8c5 g1f1 e4g3 f1e1 c5b4 e1d1 d5b3 d1c1 g3e2 c1b1 e2c3 b1c1 a2c2",
    b"e2e4 e7e6 d2d4 d7d5 e4e5 c7c5 c2c3 c5d4 c3d4 f8b4 b1c3 b8c6 g1f3 g8e7 f1d3 e8g8 d3h7 g8h7 f3g5 h7g6 h2h4 c6d4 d1g4 f7f5 h4h5 g6h6 g5e6 g7g5 h5g6",
    b"d2d4 d7d5 c2c4 e7e5 d4e5 d5d4 e2e3 f8b4 c1d2 d4e3 d2b4 e3f2 e1e2 f2g1n h1g1 c8g4",
];

/// The kind of the man that the move captures in this state, and whether it does so en passant.
fn unmove_of(state: &State, m: &Move) -> Unmove {
    let board = state.board();
    let captured = board.at(m.to);
    let ep = is_a(Kind::Pawn, board.at(m.from))
        && m.from.file() != m.to.file()
        && captured.is_none();
    let kind = if ep {
        Some(Kind::Pawn)
    } else {
        captured.map(|man| man.kind)
    };
    Unmove {
        mv: *m,
        captured: kind,
        ep,
    }
}

/// The state's clock, as a query demands it.
fn clock_of(state: &State) -> Option<u16>
    ensures { IsShortClock result }
{
    let clock = state.clock();
    if clock <= 9_999 {
        Some(clock as u16)
    } else {
        None
    }
}

/// Whether the move from this state to the next is a retraction of the position after it, and its predecessor is the position before,
/// whose clock is told if the move didn't set it to 0.
fn is_taken_back(odds: Odds, state: &State, m: &Move, next: &State) -> bool {
    let u = unmove_of(state, m);
    let query = Query {
        board: *next.board(),
        turn: next.turn(),
        odds,
        held: next.rights(),
        only: None,
        barred: None,
        clock: clock_of(next),
    };
    if !is_unmove(&query, &u) {
        return false;
    }
    let before = pred(&query, &u);
    before.board == *state.board()
        && before.turn == state.turn()
        && before.odds == odds
        && before.clock.is_none() == (next.clock() == 0)
        && (before.clock.is_none() || before.clock == clock_of(state))
        && u.ep == before.only.is_some()
}

/// The number of the first move of the game at these odds that can't be made, or isn't taken back, counted from 0.
fn first_otherwise(odds: Odds, moves: &[Move]) -> Option<usize> {
    let mut state = State::start_of(odds);
    for (i, m) in moves.iter().enumerate() {
        let Ok(next) = step(&state, m) else {
            return Some(i);
        };
        if !is_taken_back(odds, &state, m, &next) {
            return Some(i);
        }
        state = next;
    }
    None
}

/// A game that isn't taken back, with the number of its first move that isn't, or None if it can't be read.
type Otherwise = (&'static [u8], Option<usize>);

/// The game at these odds, if it isn't taken back.
fn otherwise(alloc: Global, odds: Odds, game: &'static [u8]) -> Option<Otherwise> {
    if game.len() > 10_000 {
        return Some((game, None));
    }
    let Ok(moves) = read_game(alloc, game) else {
        return Some((game, None));
    };
    match first_otherwise(odds, &moves) {
        Some(i) => Some((game, Some(i))),
        None => None,
    }
}

/// The first game that isn't taken back.
fn first_of_games(alloc: Global) -> Option<Otherwise> {
    for game in GAMES {
        let found = otherwise(alloc, Odds::none(), game);
        if found.is_some() {
            return found;
        }
    }
    None
}

#[test]
fn takes_games_back(rt: HostRuntime) {
    assert_eq!(rt; first_of_games(rt.alloc()), None);
}

/// A game without the knight of b1, and one without the rook of a1 and the pawn of f7, in which White castles on the other side and a pawn
/// is captured en passant.
const AT_ODDS: [(u64, &[u8]); 2] = [
    (
        1 << 1,
        b"e2e4 e7e5 g1f3 b8c6 f1c4 g8f6 d2d4 e5d4 e1g1 f6e4 f1e1 d7d5 c4d5 d8d5 c1g5 c8e6 f3d4 c6d4 d1d4 d5d4 e1e4 d4e4",
    ),
    (
        1 | 1 << 53,
        b"e2e4 e7e6 e4e5 d7d5 e5d6 f8d6 g1f3 g8f6 f1d3 e8g8 e1g1",
    ),
];

/// The first game at odds that isn't taken back, or whose odds can't be given.
fn first_at_odds(alloc: Global) -> Option<Otherwise> {
    for (bits, game) in AT_ODDS {
        let Some(odds) = Odds::new(SquareSet::from_bits(bits)) else {
            return Some((game, None));
        };
        let found = otherwise(alloc, odds, game);
        if found.is_some() {
            return found;
        }
    }
    None
}

#[test]
fn takes_games_at_odds_back(rt: HostRuntime) {
    assert_eq!(rt; first_at_odds(rt.alloc()), None);
}
