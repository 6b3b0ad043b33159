//! Runs of which any allocation may be refused: they answer in full, or end for want of memory with nothing written. Each assertion holds
//! with and without a refusal, so these tests pass also where `rt try --test --fail-alloc N` refuses the Nth allocation of each. Where the
//! words, the input or the sink can't be had, a run is left out.

use crate::rows::{BLOCKED_PAWN, CAPTURES, DOUBLE_STEP, NO_KINGS};
use run_driver::{Row, Status, WHOLE, run_on};
use std::alloc::Global;
use std::process::Abort;

/// A run ends for want of memory with nothing written, or as without a refusal.
fn assert_whole_or_nothing(rt: &(impl Abort + Alloc<A = Global>), row: &Row) {
    let Ok((status, sink)) = run_on(rt.alloc(), row.words, row.input, WHOLE) else {
        return;
    };
    if status == Status::Memory {
        assert!(rt; sink.taken().is_empty());
    } else {
        assert_eq!(rt; status, row.status);
        assert!(rt; sink.taken() == row.text);
    }
}

/// `check` takes no memory, so none can be wanting.
#[test]
fn checks_in_no_memory(rt: HostRuntime) {
    if let Ok((status, sink)) = run_on(rt.alloc(), NO_KINGS.words, NO_KINGS.input, WHOLE) {
        assert_eq!(rt; status, NO_KINGS.status);
        assert!(rt; sink.taken() == NO_KINGS.text);
    }
}

const ROWS: [Row; 13] = [
    BLOCKED_PAWN,
    CAPTURES,
    DOUBLE_STEP,
    Row {
        words: &["explain"],
        input: b"retro 1\nclaim illegal\nfen 4k3/8/8/8/8/8/8/4K3 w - -\nroot expand 0\n",
        status: Status::Refused,
        text: b"refused line 4 unlisted d7e8\n",
    },
    // Black's pawns stand at home, so the king or the rook moved last. `settle` finds the same reason.
    Row {
        words: &["solve", "1", "1000"],
        input: b"claim lost q\nr3k3/p1p5/Q3K3/8/8/8/8/8 w - -\n",
        status: Status::Done,
        text: b"retro 1\nclaim lost q\nfen r3k3/p1p5/Q3K3/8/8/8/8/8 w - -\nroot expand 0\n",
    },
    Row {
        words: &["settle", "64", "1000"],
        input: b"claim lost q\nr3k3/p1p5/Q3K3/8/8/8/8/8 w - -\n",
        status: Status::Done,
        text: b"retro 1\nclaim lost q\nfen r3k3/p1p5/Q3K3/8/8/8/8/8 w - -\nroot expand 0\n",
    },
    // No move is taken back for a proof, so the game comes of the search for games.
    Row {
        words: &["settle", "0", "100"],
        input: b"claim illegal\nrnbqkbnr/pppppppp/8/8/8/5N2/PPPPPPPP/RNBQKB1R b KQkq -\n",
        status: Status::Countered,
        text: b"countered g1f3\n",
    },
    // Nobody has a king, whoever is to move.
    Row {
        words: &["study"],
        input: b"8/8/8/8/8/8/8/8 w - -\n",
        status: Status::Done,
        text: b"proved 0 illegal\nother side proved 0 illegal\n",
    },
    // Of this position every line is told but those of castlings, and of the ledger who never moved and who is lacking.
    Row {
        words: &["study", "2", "1000"],
        input: b"6nk/2p4p/3B1P1P/5KpP/8/8/8/8 w - -\n",
        status: Status::Done,
        text: b"countered illegal\nproved 2 ep h5g6\nproved 2 last g7g5\nleft 1 of 6 g7g5\npossible 1 of 1 g7g5\nunmoved c7 h7\nlacks w q r r bl n n p p p p p\nlacks b q r r bd bl n p p p p p\natleast 24\n",
    },
    Row {
        words: &["verdict", "1", "100"],
        input: b"4k3/8/8/8/8/8/P7/4K2R b - -\n",
        status: Status::Done,
        text: b"K not permitted\n",
    },
    Row {
        words: &["tree", "2", "10"],
        input: b"4k3/8/8/3p4/8/8/P7/4K2R w K d6\n",
        status: Status::Done,
        text: b"root expand 1\n  d7d5 expand 0\n",
    },
    Row {
        words: &["sample", "0", "1", "1"],
        input: b"",
        status: Status::Done,
        text: b"games 1 plies 1 unmoves 1 missing 0\n",
    },
    // The kings and the rooks are barred, so pawns alone moved. Many positions are met on many ways, and their refutations are kept.
    Row {
        words: &["solve", "9", "280"],
        input: b"claim illegal\nr3k2r/1p1p1p1p/p1p1p1p1/8/8/P1P1P1P1/1P1P1P1P/R3K2R b KQkq -\n",
        status: Status::Spent,
        text: b"spent 280\n",
    },
];

#[test]
fn answers_whole_or_not_at_all(rt: HostRuntime) {
    for row in ROWS {
        assert_whole_or_nothing(&rt, &row);
    }
}

/// A proof in plain words is told whole, or nothing is. The certificate is that of the position above, whose refutations are kept.
#[test]
fn tells_a_proof_whole_or_not_at_all(rt: HostRuntime) {
    let claim = b"claim illegal\nr3k2r/1p1p1p1p/p1p1p1p1/8/8/P1P1P1P1/1P1P1P1P/R3K2R b KQkq -\n";
    let Ok((solved, certificate)) = run_on(rt.alloc(), &["solve", "9", "281"], claim, WHOLE) else {
        return;
    };
    if solved == Status::Memory {
        assert!(rt; certificate.taken().is_empty());
        return;
    }
    assert_eq!(rt; solved, Status::Done);
    let Ok((told, proof)) = run_on(rt.alloc(), &["explain"], certificate.taken(), WHOLE) else {
        return;
    };
    if told == Status::Memory {
        assert!(rt; proof.taken().is_empty());
        return;
    }
    assert_eq!(rt; told, Status::Done);
    assert!(rt;
        proof
            .taken()
            .starts_with(b"  a b c d e f g h\n8 r . . . k . . r\n")
    );
    assert!(rt; proof.taken().ends_with(b" QED\n"));
}
