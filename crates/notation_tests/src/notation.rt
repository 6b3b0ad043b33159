//! Algebraic notation: single moves in positions. Printed games stand among the rows of `rows_run`.

use arrayvec::ArrayVec;
use board_base::{Move, Square, read_move};
use fen_text::read_four_fields;
use game_text::read_game;
use play_rules::{State, is_legal};
use query_base::Query;
use san_text::{SanFault, SpellFault, read_san, write_san, write_san_game};
use std::alloc::Global;

/// The square that the double step which the query demands went over.
fn crossed(query: &Query) -> Option<Square> {
    let step = query.only?;
    let (from, to) = (step.from.index(), step.to.index());
    Square::new((from + to) / 2)
}

/// The state of a position of four fields, after the double step that it demands.
fn state_of(fen: &str) -> Option<State> {
    let query = read_four_fields(fen.as_bytes())?;
    let over = crossed(&query);
    Some(State::at(query.board, query.turn, query.held, over))
}

/// The spelling of the move in the position, if it is legal.
fn spelled(fen: &str, word: &str) -> Option<ArrayVec<u8, 16>> {
    let state = state_of(fen)?;
    let m = read_move(word.as_bytes())?;
    if !is_legal(&state, &m) {
        return None;
    }
    let mut out = ArrayVec::new();
    write_san(&state, &m, &mut out);
    Some(out)
}

/// What a text is read as in the position.
fn read_in(fen: &str, text: &str) -> Option<Result<Move, SanFault>> {
    let state = state_of(fen)?;
    Some(read_san(&state, text.as_bytes()))
}

/// A position, a move, and how it is spelled.
const SPELLINGS: [(&str, &str, &str); 22] = [
    // Rooks on d8 and h8 reach f8, and those on a1 and a5 reach a3.
    ("1k1r3r/8/8/R7/4Q2Q/8/8/R6Q b - -", "d8f8", "Rdf8"),
    ("1k1r3r/8/8/R7/4Q2Q/8/8/R6Q w - -", "a1a3", "R1a3"),
    // Queens on e4, h4 and h1 reach e1.
    ("1k6/8/8/8/4Q2Q/8/8/K6Q w - -", "e4e1", "Qee1"),
    ("1k6/8/8/8/4Q2Q/8/8/K6Q w - -", "h1e1", "Q1e1"),
    ("1k6/8/8/8/4Q2Q/8/8/K6Q w - -", "h4e1", "Qh4e1"),
    // A knight that is free to move, and one that is pinned.
    ("4k3/8/8/8/8/2N5/8/4K1N1 w - -", "g1e2", "Nge2"),
    ("4k3/8/8/8/1b6/2N5/8/4K1N1 w - -", "g1e2", "Ne2"),
    // Castling with check, and Lasker's game as it could have ended.
    ("5k2/8/8/8/8/8/8/4K2R w K -", "e1g1", "O-O+"),
    ("3k4/8/8/8/8/8/8/R3K3 w Q -", "e1c1", "O-O-O+"),
    (
        "rn3r2/pbppq1p1/1p2pN2/8/3P2NP/6P1/PPP1BP1R/R3K1k1 w Q -",
        "e1c1",
        "O-O-O#",
    ),
    (
        "rn3r2/pbppq1p1/1p2pN2/8/3P2NP/6P1/PPP1BP1R/R3K1k1 w Q -",
        "e1d2",
        "Kd2#",
    ),
    // Promotion by a capture, with check, with mate and with neither.
    ("3r3k/4P3/8/8/8/8/8/K7 w - -", "e7d8q", "exd8=Q+"),
    ("3r3k/4P3/6K1/8/8/8/8/8 w - -", "e7d8q", "exd8=Q#"),
    ("3r3k/4P3/6K1/8/8/8/8/8 w - -", "e7d8r", "exd8=R#"),
    ("3r3k/4P3/6K1/8/8/8/8/8 w - -", "e7d8n", "exd8=N"),
    ("3r3k/4P3/6K1/8/8/8/8/8 w - -", "e7d8b", "exd8=B"),
    ("3r3k/4P3/6K1/8/8/8/8/8 w - -", "e7e8q", "e8=Q+"),
    // A capture en passant, and the step beside it.
    ("4k3/8/8/3pP3/8/8/8/4K3 w - d6", "e5d6", "exd6"),
    ("4k3/8/8/3pP3/8/8/8/4K3 w - d6", "e5e6", "e6"),
    // Two pawns that capture on one square.
    ("4k3/8/8/3p4/2P1P3/8/8/4K3 w - -", "c4d5", "cxd5"),
    // Stalemate has no sign.
    ("7k/5K2/8/8/8/8/8/6Q1 w - -", "g1g6", "Qg6"),
    // Mate in the corner.
    ("7k/8/6K1/8/8/8/8/R7 w - -", "a1a8", "Ra8#"),
];

/// The first move that isn't spelled so, and how it is spelled.
fn first_misspelled() -> Option<(&'static str, &'static str, Option<ArrayVec<u8, 16>>)> {
    for (fen, word, text) in SPELLINGS {
        match spelled(fen, word) {
            Some(written) if written.as_slice() == text.as_bytes() => {}
            other => return Some((fen, word, other)),
        }
    }
    None
}

/// The first spelling that isn't read as its move, and what it is read as.
fn first_misread() -> Option<(&'static str, &'static str, Option<Result<Move, SanFault>>)> {
    for (fen, word, text) in SPELLINGS {
        let answer = read_in(fen, text);
        let Some(wanted) = read_move(word.as_bytes()) else {
            return Some((fen, text, answer));
        };
        if answer != Some(Ok(wanted)) {
            return Some((fen, text, answer));
        }
    }
    None
}

#[test]
fn spells_moves_in_positions(rt: HostRuntime) {
    assert_eq!(rt; first_misspelled(), None);
    assert_eq!(rt; first_misread(), None);
}

/// Knights on b1 and f3 reach d2, and a bishop stands between king and rook.
const AFTER_TWO_MOVES: &str = "rnbqkbnr/1ppppppp/8/p7/8/3P1N2/PPP1PPPP/RNBQKB1R w KQkq -";

/// A position, a text, and why it names no move there.
const FAULTS: [(&str, &str, SanFault); 26] = [
    ("5k2/8/8/8/8/8/8/4K2R w K -", "0-0", SanFault::BadText),
    ("5k2/8/8/8/8/8/8/4K2R w K -", "o-o", SanFault::BadText),
    ("5k2/8/8/8/8/8/8/4K2R w K -", "O-O-", SanFault::BadText),
    ("5k2/8/8/8/8/8/8/4K2R w K -", "O-O-O", SanFault::NoMove),
    ("5k2/8/8/8/8/8/8/4K2R w K -", "Kg1", SanFault::NoMove),
    ("3r3k/4P3/8/8/8/8/8/K7 w - -", "e8Q", SanFault::BadText),
    ("3r3k/4P3/8/8/8/8/8/K7 w - -", "e8=K", SanFault::BadText),
    ("3r3k/4P3/8/8/8/8/8/K7 w - -", "e8", SanFault::NoMove),
    ("3r3k/4P3/8/8/8/8/8/K7 w - -", "ed8=Q", SanFault::BadText),
    ("3r3k/4P3/8/8/8/8/8/K7 w - -", "d8=Q", SanFault::NoMove),
    ("4k3/8/8/3pP3/8/8/8/4K3 w - d6", "exd", SanFault::BadText),
    ("4k3/8/8/3pP3/8/8/8/4K3 w - d6", "e.p.", SanFault::BadText),
    (
        "4k3/8/8/3pP3/8/8/8/4K3 w - d6",
        "exd6e.p.",
        SanFault::BadText,
    ),
    ("4k3/8/8/3pP3/8/8/8/4K3 w - d6", "d6", SanFault::NoMove),
    ("4k3/8/8/3pP3/8/8/8/4K3 w - -", "exd6", SanFault::NoMove),
    ("4k3/8/8/8/8/2N5/8/4K1N1 w - -", "Ne2", SanFault::Many),
    ("4k3/8/8/8/8/2N5/8/4K1N1 w - -", "Ngxe2", SanFault::NoMove),
    ("4k3/8/8/8/8/2N5/8/4K1N1 w - -", "Nge2!", SanFault::BadText),
    ("4k3/8/8/8/8/2N5/8/4K1N1 w - -", "", SanFault::BadText),
    ("1k6/8/8/8/4Q2Q/8/8/K6Q w - -", "Q4e1", SanFault::Many),
    ("1k6/8/8/8/4Q2Q/8/8/K6Q w - -", "Qhe1", SanFault::Many),
    (AFTER_TWO_MOVES, "nbd2", SanFault::BadText),
    (AFTER_TWO_MOVES, "Nbd2++", SanFault::BadText),
    (AFTER_TWO_MOVES, "Nd4e5", SanFault::NoMove),
    (AFTER_TWO_MOVES, "O-O", SanFault::NoMove),
    (AFTER_TWO_MOVES, "e4=Q", SanFault::NoMove),
];

/// The first text of a fault that isn't read so, and what it is read as.
fn first_misnamed() -> Option<(&'static str, &'static str, Option<Result<Move, SanFault>>)> {
    for (fen, text, fault) in FAULTS {
        let answer = read_in(fen, text);
        if answer != Some(Err(fault)) {
            return Some((fen, text, answer));
        }
    }
    None
}

#[test]
fn names_what_is_wrong_with_a_text(rt: HostRuntime) {
    assert_eq!(rt; first_misnamed(), None);
}

/// How the moves of these words are spelled, played from a state, and why they aren't. Neither is given if there is no state, or the
/// words can't be read.
fn spelled_game(
    alloc: Global,
    start: Option<State>,
    words: &[u8],
) -> (Option<Vec<u8>>, Option<SpellFault>) {
    let Some(start) = start else {
        return (None, None);
    };
    if words.len() > 1_000 {
        return (None, None);
    }
    let Ok(moves) = read_game(alloc, words) else {
        return (None, None);
    };
    match write_san_game(alloc, start, &moves) {
        Ok(text) => (Some(text), None),
        Err(fault) => (None, Some(fault)),
    }
}

/// No moves make an empty text; Black's move has no number if he begins; and the first move that isn't legal is named.
#[test]
fn spells_from_any_state(rt: HostRuntime) {
    let (text, fault) = spelled_game(rt.alloc(), Some(State::start()), b"");
    assert_eq!(rt; (text.as_deref(), fault), (Some(b"".as_slice()), None));
    let black = state_of("4k3/4p3/8/8/8/8/4P3/4K3 b - -");
    let (text, fault) = spelled_game(rt.alloc(), black, b"e7e5 e2e4 e8e7 e1e2");
    assert_eq!(rt;
        (text.as_deref(), fault),
        (Some(b"e5 1. e4 Ke7 2. Ke2".as_slice()), None)
    );
    let (text, fault) = spelled_game(rt.alloc(), Some(State::start()), b"e2e4 e7e5 e4e5 e1e8");
    assert_eq!(rt;
        (text.as_deref(), fault),
        (None, Some(SpellFault::Illegal { ply: 3 }))
    );
}
