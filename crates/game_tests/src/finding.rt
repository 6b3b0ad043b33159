//! Positions to which a game is found.

ghost use Rattle.std.specs.Prelude.{◌≡◌};

use board_base::{Move, MoveList, Odds, SquareSet};
use fen_text::read_four_fields;
use game_search::{MOST_QUERIES, find_game};
use play_rules::{State, step};
use query_base::{Query, matches_end};
use std::alloc::Global;

/// Published problems of few men and many; positions of games with all their rights, and ends of games with some; double steps that
/// were just made; and men who must have been promoted.
const DIAGRAMS: [&str; 18] = [
    "8/8/4p3/1K2p3/3k4/5Q2/8/8 w - -",
    "1B5R/p5n1/P5pP/RnN3k1/8/p4P1K/P1Q1B3/8 w - -",
    "3N4/3p4/K2Br3/1N1kPR2/1p2p3/1P1r1p2/3P1P2/7Q w - -",
    "1K6/3p4/1Rb2N2/P1kp1PQ1/3R1P2/1p3N2/1P2P3/8 w - -",
    "r7/p1N3p1/3p3P/P3kB2/4p1Q1/1P6/2P1p1P1/4Kb2 w - -",
    "8/2N5/B1p2p2/P1k5/5PP1/2P2P2/P2PPR1K/4B3 w - -",
    "4N3/4p3/pbk5/r1p5/P3R2P/1Q4BB/6n1/1K6 w - -",
    "rnbqkbnr/pppppppp/8/8/8/8/PPPPPPPP/RNBQKBNR w KQkq -",
    "r1bqkbnr/pppp1ppp/2n5/1B2p3/4P3/5N2/PPPP1PPP/RNBQK2R b KQkq -",
    "r3k2r/p1ppqpb1/bn2pnp1/3PN3/1p2P3/2N2Q1p/PPPBBPPP/R3K2R w KQkq -",
    "4kb1r/p2n1ppp/4q3/4p1B1/4P3/1Q6/PPP2PPP/2KR4 w k -",
    "4k2r/8/8/3p4/8/8/8/R3K3 w Qk -",
    "4k3/8/8/8/8/8/8/R3K3 w Q -",
    "rnbqkbnr/pp1ppppp/8/2p5/4P3/8/PPPP1PPP/RNBQKBNR w KQkq c6",
    "8/8/8/2k5/3Pp3/8/8/4K3 b - d3",
    "rnbqkb1r/ppp1pppp/5n2/3pP3/8/8/PPPP1PPP/RNBQKBNR w KQkq d6",
    "8/8/8/3k4/8/8/1NNN4/4K3 w - -",
    "6k1/8/8/8/8/QQ6/8/K1Q5 b - -",
];

/// Positions at odds: the squares that are left out of the array, as bits from a1 on.
const AT_ODDS: [(u64, &str); 3] = [
    (8, "rnbqkbnr/pppppppp/8/8/8/5N2/PPPPPPPP/RNB1KB1R b KQkq -"),
    (
        0x0100_0000_0000_0001,
        "1nbqkbnr/1p1ppppp/8/2p5/8/2N5/PPPPPPPP/2BQKBNR w Kk -",
    ),
    (0x0020_0000_0000_0000, "3qk3/8/8/8/8/8/4P3/4K3 w - -"),
];

/// Whether this game, played at the query's odds, reaches it.
pub fn is_game_to(query: &Query, game: &MoveList) -> bool {
    let mut state = State::start_of(query.odds);
    let mut last = None;
    for i in 0..game.len() {
        let m = game.get(i).unwrap();
        match step(&state, &m) {
            Ok(next) => state = next,
            Err(_) => return false,
        }
        last = Some(m);
    }
    matches_end(&state, last, query)
}

/// How many moves the game has that is found, if it reaches the query.
pub fn length_found(alloc: Global, query: &Query, last: Option<Move>) -> Option<usize> {
    let Ok(hunt) = find_game(alloc, query, last, MOST_QUERIES) else {
        return None;
    };
    let game = hunt.game?;
    if is_game_to(query, &game) {
        Some(game.len())
    } else {
        None
    }
}

#[test]
fn games_are_found(rt: HostRuntime) {
    for text in DIAGRAMS {
        let query = read_four_fields(text.as_bytes()).expect(&rt, "a FEN");
        assert!(rt; length_found(rt.alloc(), &query, None).is_some(), "{text}");
    }
}

#[test]
fn games_at_odds_are_found(rt: HostRuntime) {
    for (bits, text) in AT_ODDS {
        let query = read_four_fields(text.as_bytes()).expect(&rt, "a FEN");
        let odds = Odds::new(SquareSet::from_bits(bits)).expect(&rt, "homes");
        let at_odds = Query { odds, ..query };
        assert!(rt;
            length_found(rt.alloc(), &at_odds, None).is_some(),
            "{text}"
        );
    }
}

/// No game leads to two kings side by side, to nine pawns of a side, or to men none of whom has moved.
const UNREACHED: [&str; 3] = [
    "8/8/8/3Kk3/8/8/8/8 w - -",
    "4k3/8/8/8/P7/8/PPPPPPPP/4K3 w - -",
    "r3k2r/8/8/8/8/8/8/R3K2R b KQkq -",
];

/// The array is reached by the game of no moves.
#[test]
fn ends_of_the_search(rt: HostRuntime) {
    let array = read_four_fields(DIAGRAMS[7].as_bytes()).expect(&rt, "a FEN");
    assert_eq!(rt; length_found(rt.alloc(), &array, None), Some(0));
    for text in UNREACHED {
        let query = read_four_fields(text.as_bytes()).expect(&rt, "a FEN");
        assert_eq!(rt; length_found(rt.alloc(), &query, None), None);
    }
}
