//! For which positions the search for sketches finds that no game comes to them, and for which it finds nothing.

use fen_text::read_four_fields;
use sketch_search::{SketchDesk, find_sketch};
use sketch_trees::{Limits, SMALL};

/// No game comes to these: a king or men behind pawns that never moved, a third rook who must have passed with check, and diagrams whose
/// side can't have kept its right.
const REFUTED: [&str; 10] = [
    "rnbqkbnr/pppppppp/8/8/4K3/8/PPPPPPPP/RNBQ1BNR w - -",
    "8/8/8/8/8/8/PPPP1PPP/4K2k w - -",
    "4k3/8/8/8/8/8/4PPPP/5BK1 w - -",
    "rnbqkbnr/pppppppp/8/8/R7/P7/1PPPPPPP/1NBQKBNR w - -",
    "rn2k2r/ppp1pppp/8/3p4/8/8/PPP1PPPP/RRR1K3 w q -",
    "8/5p2/5p2/2R5/k5P1/P2PpP2/1PP1P2P/4K2R w K -",
    "8/pbp5/1b6/8/PPPPPPP1/pprprpp1/2N1PR1n/R3K2k w Q -",
    "K3k2r/1p2p1p1/p1p1p3/2Q1Np2/3n1P2/4PRP1/PPPPRrP1/n2bqB2 w k -",
    "1B6/pp3pP1/5pP1/3Pp2P/3pK2k/3P3P/1P2RNnp/3QN2b w - -",
    "2B3K1/PPp3Np/pp5P/3PPp2/3pqQ1P/3PPRrk/5ppr/7n b - -",
];

/// Nothing is found of these: positions of games, bare kings, and positions that a game leads to.
const OPEN: [&str; 8] = [
    "rnbqkbnr/pppppppp/8/8/8/8/PPPPPPPP/RNBQKBNR w KQkq -",
    "r3k2r/p1ppqpb1/bn2pnp1/3PN3/1p2P3/2N2Q1p/PPPBBPPP/R3K2R w KQkq -",
    "4kb1r/p2n1ppp/4q3/4p1B1/4P3/1Q6/PPP2PPP/2KR4 w k -",
    "8/8/8/8/8/8/8/K1k5 w - -",
    "8/8/8/7B/7B/5PN1/3P1Nk1/R3K2R w Q -",
    "4k3/1p2P2p/2N1P1N1/2PpKpP1/3PpP2/4P3/4P3/8 w - -",
    "8/8/4p3/1K2p3/3k4/5Q2/8/8 w - -",
    "1B5R/p5n1/P5pP/RnN3k1/8/p4P1K/P1Q1B3/8 w - -",
];

#[test]
fn small_searches_find_these(rt: HostRuntime) {
    let mut desk = SketchDesk::new(rt.alloc());
    for fen in REFUTED {
        let query = read_four_fields(fen.as_bytes()).expect(&rt, "a FEN");
        let found = find_sketch(rt.alloc(), &query, SMALL, &mut desk).expect(&rt, "memory");
        assert!(rt; found.is_some(), "{fen}");
    }
}

#[test]
fn small_searches_leave_these_open(rt: HostRuntime) {
    let mut desk = SketchDesk::new(rt.alloc());
    for fen in OPEN {
        let query = read_four_fields(fen.as_bytes()).expect(&rt, "a FEN");
        let found = find_sketch(rt.alloc(), &query, SMALL, &mut desk).expect(&rt, "memory");
        assert!(rt; found.is_none(), "{fen}");
    }
}

/// Loyd's problem of 1894 two moves back: pawns' moves on the a-file are taken back one by one.
#[test]
fn an_exact_file_is_tried(rt: HostRuntime) {
    let fen = "1b3NrR/P1pp2pK/1p2ppRQ/6P1/1P3pk1/1b6/P1PPP2P/N7 w - -";
    let query = read_four_fields(fen.as_bytes()).expect(&rt, "a FEN");
    let mut desk = SketchDesk::new(rt.alloc());
    let limits = Limits {
        files: true,
        ..SMALL
    };
    let found = find_sketch(rt.alloc(), &query, limits, &mut desk)
        .expect(&rt, "memory")
        .expect(&rt, "a sketch");
    assert!(rt; found.exact[0], "the a-file is exact");
}
