use board_base::{Move, read_move};
use fen_text::read_fen;
use play_rules::{State, legal_moves, step};
use std::alloc::Global;

/// How many lines of so many legal moves begin in this state.
fn perft(alloc: Global, state: &State, depth: u8) -> Option<u64> {
    if depth == 0 {
        return Some(1);
    }
    let mut lines = 0;
    for m in &legal_moves(alloc, state).ok()? {
        let next = step(state, m).ok()?;
        lines = perft(alloc, &next, depth - 1)?.checked_add(lines)?;
    }
    Some(lines)
}

/// The same from a position without an en passant square.
fn perft_from(alloc: Global, fen: &[u8], depth: u8) -> Option<u64> {
    if fen.len() > 100 {
        return None;
    }
    let (query, _) = read_fen(fen).ok()?;
    let state = State::at(query.board, query.turn, query.held, None);
    perft(alloc, &state, depth)
}

/// The published counts of the positions that programs are commonly compared by.
#[test]
fn counts_lines(rt: HostRuntime) {
    let start = "rnbqkbnr/pppppppp/8/8/8/8/PPPPPPPP/RNBQKBNR w KQkq -";
    let castlings = "r3k2r/p1ppqpb1/bn2pnp1/3PN3/1p2P3/2N2Q1p/PPPBBPPP/R3K2R w KQkq -";
    let en_passant = "8/2p5/3p4/KP5r/1R3p1k/8/4P1P1/8 w - -";
    let promotions = "r3k2r/Pppp1ppp/1b3nbN/nP6/BBP1P3/q4N2/Pp1P2PP/R2Q1RK1 w kq -";
    let check = "rnbq1k1r/pp1Pbppp/2p5/8/2B5/8/PPP1NnPP/RNBQK2R w KQ -";
    let middle_game = "r4rk1/1pp1qppp/p1np1n2/2b1p1B1/2B1P1b1/P1NP1N2/1PP1QPPP/R4RK1 w - -";
    for (fen, depth, lines) in [
        (start, 1, 20),
        (start, 2, 400),
        (start, 3, 8_902),
        (castlings, 1, 48),
        (castlings, 2, 2_039),
        (en_passant, 1, 14),
        (en_passant, 2, 191),
        (en_passant, 3, 2_812),
        (promotions, 1, 6),
        (promotions, 2, 264),
        (check, 1, 44),
        (check, 2, 1_486),
        (middle_game, 1, 46),
        (middle_game, 2, 2_079),
    ] {
        assert_eq!(rt;
            perft_from(rt.alloc(), fen.as_bytes(), depth),
            Some(lines),
            "{fen} at {depth}"
        );
    }
}

/// The 20 first moves, by origin and target.
const FIRST_MOVES: [&str; 20] = [
    "b1a3", "b1c3", "g1f3", "g1h3", "a2a3", "a2a4", "b2b3", "b2b4", "c2c3", "c2c4", "d2d3", "d2d4",
    "e2e3", "e2e4", "f2f3", "f2f4", "g2g3", "g2g4", "h2h3", "h2h4",
];

/// How many first moves are listed, and the first that isn't the one of its text, with the text.
fn first_moves(alloc: Global) -> Option<(usize, Option<(Move, &'static str)>)> {
    let moves = legal_moves(alloc, &State::start()).ok()?;
    for (m, text) in moves.iter().zip(&FIRST_MOVES) {
        if read_move(text.as_bytes()) != Some(*m) {
            return Some((moves.len(), Some((*m, *text))));
        }
    }
    Some((moves.len(), None))
}

#[test]
fn lists_first_moves(rt: HostRuntime) {
    assert_eq!(rt; first_moves(rt.alloc()), Some((FIRST_MOVES.len(), None)));
}
