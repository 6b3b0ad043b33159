//! Proofs of which a line is changed, and lines that prove nothing of positions that were played.

use crate::price_lines::{ALFIERE_PRICES, FLAT};
use crate::walks::{Edit, End, NO_FILES, Proof, walked};
use sketch_checker::SketchFault;

/// The proof for L'Alfiere.
const WHOLE: Proof = Proof {
    name: "L'Alfiere",
    fen: "8/pbp5/1b6/8/PPPPPPP1/pprprpp1/2N1PR1n/R3K2k w Q -",
    files: NO_FILES,
    prices: &[ALFIERE_PRICES],
    lines: &[
        "now marks 1 steps 8",
        "mark 1 4 6 13 14 15 16 17 18 22",
        "b2=b1 closed 1",
        "a2xb1b= closed 1",
        "a2xb1nrq= closed 1",
        "g2xf1b= closed 1",
        "g2xf1nrq= closed 1",
        "h3xg4p closed 1",
        "h3xg4b closed 1",
        "h3xg4nrq closed 1",
    ],
    end: End::Done,
};

/// Lines that are changed: each is refused if it is no longer so.
#[test]
fn changed_proofs_are_refused(rt: HostRuntime) {
    let misplaced = SketchFault::Misplaced;
    let first = SketchFault::Unsupported { line: 1 };
    let second = SketchFault::Unsupported { line: 2 };
    let third = SketchFault::Unsupported { line: 3 };
    let edits = [
        ("nothing", Edit::Nothing, End::Done),
        ("no marks", Edit::Dropped(1), End::Refused(1, misplaced)),
        (
            "a step dropped",
            Edit::Dropped(3),
            End::Refused(3, SketchFault::Stray { line: 4 }),
        ),
        ("the last step dropped", Edit::Dropped(9), End::Open),
        (
            "the first line dropped",
            Edit::Dropped(0),
            End::Refused(0, misplaced),
        ),
        (
            "the first line doubled",
            Edit::Doubled(0),
            End::Refused(1, misplaced),
        ),
        (
            "marks doubled",
            Edit::Doubled(1),
            End::Refused(2, misplaced),
        ),
        (
            "a step doubled",
            Edit::Doubled(3),
            End::Refused(4, SketchFault::Stray { line: 5 }),
        ),
        (
            "the last step doubled",
            Edit::Doubled(9),
            End::Refused(10, misplaced),
        ),
        (
            "the first two lines swapped",
            Edit::Swapped(0),
            End::Refused(0, misplaced),
        ),
        (
            "marks behind a step",
            Edit::Swapped(1),
            End::Refused(1, misplaced),
        ),
        (
            "two steps swapped",
            Edit::Swapped(4),
            End::Refused(4, SketchFault::Stray { line: 5 }),
        ),
        (
            "a step for the first node",
            Edit::Put(0, "b2=b1 marks 1 steps 8"),
            End::Refused(0, SketchFault::Stray { line: 1 }),
        ),
        (
            "the first node for a step",
            Edit::Put(2, "now closed 1"),
            End::Refused(2, SketchFault::Stray { line: 3 }),
        ),
        (
            "a case for a step",
            Edit::Put(2, "case n closed 1"),
            End::Refused(2, SketchFault::Stray { line: 3 }),
        ),
        (
            "another victim",
            Edit::Put(3, "a2xb1nrq= closed 1"),
            End::Refused(3, SketchFault::Stray { line: 4 }),
        ),
        (
            "another origin",
            Edit::Put(3, "c2xb1b= closed 1"),
            End::Refused(3, SketchFault::Stray { line: 4 }),
        ),
        (
            "pawns above that aren't there",
            Edit::Put(7, "h3xg4p1 closed 1"),
            End::Refused(7, SketchFault::Stray { line: 8 }),
        ),
        (
            "a mark more than is forced",
            Edit::Put(1, "mark 1 1 4 6 13 14 15 16 17 18 22"),
            End::Refused(1, second),
        ),
        (
            "a mark of a king",
            Edit::Put(1, "mark 1 2 4 6 13 14 15 16 17 18 22"),
            End::Refused(1, second),
        ),
        (
            "a mark of nobody",
            Edit::Put(1, "mark 1 4 6 13 14 15 16 17 18 32"),
            End::Refused(1, second),
        ),
        (
            "no step",
            Edit::Put(0, "now marks 1 steps 0"),
            End::Refused(1, first),
        ),
        (
            "a step too few",
            Edit::Put(0, "now marks 1 steps 7"),
            End::Refused(8, first),
        ),
        (
            "a step too many",
            Edit::Put(0, "now marks 1 steps 9"),
            End::Open,
        ),
        (
            "closed with marks",
            Edit::Put(0, "now marks 1 closed 1"),
            End::Refused(1, first),
        ),
        (
            "void with marks",
            Edit::Put(0, "now marks 1 void"),
            End::Refused(1, first),
        ),
        (
            "split with marks",
            Edit::Put(0, "now marks 1 split a1"),
            End::Refused(1, first),
        ),
        (
            "a step that isn't void",
            Edit::Put(2, "b2=b1 void"),
            End::Refused(2, third),
        ),
        (
            "a price line that isn't there",
            Edit::Put(2, "b2=b1 closed 2"),
            End::Unread(2),
        ),
    ];
    for (name, edit, end) in edits {
        assert_eq!(rt; walked(&WHOLE, edit), Some(end), "{}", name);
    }
}

/// A proof of one line for this diagram.
fn one_line(fen: &'static str, line: &'static [&'static str]) -> Proof {
    Proof {
        name: fen,
        fen,
        files: NO_FILES,
        prices: &[FLAT],
        lines: line,
        end: End::Refused(0, SketchFault::Unsupported { line: 1 }),
    }
}

/// No position of games that were played is refuted in one line: Paris, 1858, London, 1851, and Berlin, 1852.
#[test]
fn played_positions_are_not_refuted(rt: HostRuntime) {
    let fens = [
        "rnbqkbnr/pppp1ppp/8/4p3/4P3/8/PPPP1PPP/RNBQKBNR w KQkq -",
        "rnbqkbnr/ppp2ppp/3p4/4p3/4P3/5N2/PPPP1PPP/RNBQKB1R w KQkq -",
        "rn1qkbnr/ppp2ppp/3p4/4P3/4P1b1/5N2/PPP2PPP/RNBQKB1R b KQkq -",
        "rn1qkbnr/ppp2ppp/3p4/4P3/4P3/5Q2/PPP2PPP/RNB1KB1R b KQkq -",
        "rn1qkb1r/ppp2ppp/5n2/4p3/2B1P3/5Q2/PPP2PPP/RNB1K2R w KQkq -",
        "rn2kb1r/ppp1qppp/5n2/4p3/2B1P3/1Q6/PPP2PPP/RNB1K2R w KQkq -",
        "rn2kb1r/pp2qppp/2p2n2/4p1B1/2B1P3/1QN5/PPP2PPP/R3K2R b KQkq -",
        "rn2kb1r/p3qppp/2p2n2/1N2p1B1/2B1P3/1Q6/PPP2PPP/R3K2R b KQkq -",
        "r3kb1r/p2nqppp/5n2/1B2p1B1/4P3/1Q6/PPP2PPP/R3K2R w KQkq -",
        "3rkb1r/p2nqppp/5n2/1B2p1B1/4P3/1Q6/PPP2PPP/2KR3R w k -",
        "4kb1r/p2rqppp/5n2/1B2p1B1/4P3/1Q6/PPP2PPP/2KR4 b k -",
        "4kb1r/p2B1ppp/4qn2/4p1B1/4P3/1Q6/PPP2PPP/2KR4 b k -",
        "1n2kb1r/p4ppp/4q3/4p1B1/4P3/8/PPP2PPP/2KR4 w k -",
        "rnbqkbnr/pppppppp/8/8/4P3/8/PPPP1PPP/RNBQKBNR b KQkq -",
        "rnbqkbnr/pppp1ppp/8/8/4Pp2/8/PPPP2PP/RNBQKBNR w KQkq -",
        "rnb1kbnr/pppp1ppp/8/8/2B1Pp1q/8/PPPP2PP/RNBQK1NR w KQkq -",
        "rnb1kbnr/p1pp1ppp/8/1B6/4Pp1q/8/PPPP2PP/RNBQ1KNR b kq -",
        "rnb1kb1r/p1pp1ppp/5n2/1B6/4Pp1q/5N2/PPPP2PP/RNBQ1K1R b kq -",
        "rnb1kb1r/p1pp1ppp/7q/1B5n/4Pp2/3P1N2/PPP3PP/RNBQ1K1R w kq -",
        "rnb1kb1r/p1pp1ppp/8/1B4qn/4Pp1N/3P4/PPP3PP/RNBQ1K1R w kq -",
        "rnb1kb1r/p2p1ppp/2p5/1B3Nqn/4PpP1/3P4/PPP4P/RNBQ1K1R b kq -",
        "rnb1kb1r/p2p1ppp/2p2n2/1B3Nq1/4PpP1/3P4/PPP4P/RNBQ1KR1 b kq -",
        "rnb1kb1r/p2p1ppp/5nq1/1p3N2/4PpPP/3P4/PPP5/RNBQ1KR1 w kq -",
        "rnb1kb1r/p2p1ppp/5n2/1p3NqP/4PpP1/3P4/PPP5/RNBQ1KR1 w kq -",
        "rnb1kbnr/p2p1ppp/8/1p3NqP/4PBP1/3P1Q2/PPP5/RN3KR1 b kq -",
        "rnb1kbnr/p2p1ppp/5q2/1p3N1P/4PBP1/2NP1Q2/PPP5/R4KR1 b kq -",
        "rnb1k1nr/p2p1ppp/8/1pbN1N1P/4PBP1/3P1Q2/PqP5/R4KR1 w kq -",
        "rnb1k1nr/p2p1ppp/3B4/1p1N1N1P/4P1P1/3P1Q2/PqP5/R4Kb1 w kq -",
        "rnb1k1nr/p2p1ppp/3B4/1p1NPN1P/6P1/3P1Q2/P1P1K3/q5b1 b kq -",
        "r1b1k1nr/p2p1pNp/n2B4/1p1NP2P/6P1/3P1Q2/P1P1K3/q5b1 b kq -",
        "r1bk3r/p2p1pNp/n2B1n2/1p1NP2P/6P1/3P4/P1P1K3/q5b1 w - -",
        "rnbqkbnr/pppppppp/8/8/4P3/8/PPPP1PPP/RNBQKBNR b KQkq -",
        "r1bqkbnr/pppp1ppp/2n5/4p3/4P3/5N2/PPPP1PPP/RNBQKB1R w KQkq -",
        "r1bqk1nr/pppp1ppp/2n5/2b1p3/2B1P3/5N2/PPPP1PPP/RNBQK2R w KQkq -",
        "r1bqk1nr/pppp1ppp/2n5/4p3/1bB1P3/2P2N2/P2P1PPP/RNBQK2R b KQkq -",
        "r1bqk1nr/pppp1ppp/2n5/b3p3/2BPP3/2P2N2/P4PPP/RNBQK2R b KQkq -",
        "r1bqk1nr/pppp1ppp/2n5/b7/2B1P3/2Pp1N2/P4PPP/RNBQ1RK1 w kq -",
        "r1b1k1nr/pppp1ppp/2n2q2/b7/2B1P3/1QPp1N2/P4PPP/RNB2RK1 w kq -",
        "r1b1k1nr/pppp1ppp/2n3q1/b3P3/2B5/1QPp1N2/P4PPP/RNB1R1K1 b kq -",
        "r1b1k2r/ppppnppp/2n3q1/b3P3/2B5/BQPp1N2/P4PPP/RN2R1K1 b kq -",
        "1rb1k2r/p1ppnppp/2n3q1/bQ2P3/2B5/B1Pp1N2/P4PPP/RN2R1K1 w k -",
        "1rb1k2r/p1ppnppp/1bn3q1/4P3/Q1B5/B1Pp1N2/P4PPP/RN2R1K1 w k -",
        "1r2k2r/pbppnppp/1bn3q1/4P3/Q1B1N3/B1Pp1N2/P4PPP/R3R1K1 b k -",
        "1r2k2r/pbppnppp/1bn5/4Pq2/Q3N3/B1PB1N2/P4PPP/R3R1K1 b k -",
        "1r2k2r/pbppnp1p/1bn2p2/4P2q/Q7/B1PB1N2/P4PPP/R3R1K1 w k -",
        "1r2k1r1/pbppnp1p/1bn2P2/7q/Q7/B1PB1N2/P4PPP/R3R1K1 w - -",
        "1r2k1r1/pbppRp1p/1bn2P2/8/Q7/B1PB1q2/P4PPP/3R2K1 b - -",
        "1r2k1r1/pbpQnp1p/1b3P2/8/8/B1PB1q2/P4PPP/3R2K1 b - -",
        "1r2k1r1/pbp1np1p/1b3P2/5B2/8/B1P2q2/P4PPP/3R2K1 w - -",
        "1r3kr1/pbpBnp1p/1b3P2/8/8/B1P2q2/P4PPP/3R2K1 w - -",
    ];
    for fen in fens {
        for line in [&["now void"], &["now closed 1"], &["now steps 0"]] {
            let proof = one_line(fen, line);
            assert_eq!(rt; walked(&proof, Edit::Nothing), Some(proof.end), "{}", fen);
        }
    }
}
