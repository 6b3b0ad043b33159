//! What never moved of a diagram's sketch, and whether a pawn has a zone of two squares.

use fen_text::read_four_fields;
use figures::sketch_of;
use sketch_grounds::{greatest_frozen, zones_of};

/// The squares of the greatest frozen set as 64 bits, and whether some zone has two squares. None if the diagram can't be read.
fn found(fen: &str) -> Option<(u64, bool)> {
    let query = read_four_fields(fen.as_bytes())?;
    let sketch = sketch_of(&query.board)?;
    let wall = greatest_frozen(&sketch, query.held);
    Some((wall.bits(), !zones_of(&sketch, wall).is_empty()))
}

/// A case, its diagram, the squares that must be found, and whether there is a zone: of a pawn on a3 who can't have come from b2, and so came
/// from a2.
#[test]
fn finds_what_never_moved(rt: HostRuntime) {
    let rows: [(&str, &str, u64, bool); 4] = [
        (
            "f1 behind e2 and g2, beside a king who isn't shut in",
            "4k3/8/8/8/8/8/4PPPP/5BK1 w - -",
            1 << 5 | 0xf000,
            false,
        ),
        (
            "e1 and h1 by the right, and pawns at home",
            "8/5p2/5p2/2R5/k5P1/P2PpP2/1PP1P2P/4K2R w K -",
            1 << 4 | 1 << 7 | 1 << 9 | 1 << 10 | 1 << 12 | 1 << 15 | 1 << 53,
            true,
        ),
        (
            "pawns at home alone",
            "8/5p2/5p2/2R5/k5P1/P2PpP2/1PP1P2P/4K2R w - -",
            1 << 9 | 1 << 10 | 1 << 12 | 1 << 15 | 1 << 53,
            true,
        ),
        (
            "a1 and e1 by the right, and pawns at home",
            "8/pbp5/1b6/8/PPPPPPP1/pprprpp1/2N1PR1n/R3K2k w Q -",
            1 | 1 << 4 | 1 << 12 | 1 << 48 | 1 << 50,
            false,
        ),
    ];
    for (case, fen, frozen, zones) in rows {
        assert_eq!(rt; found(fen), Some((frozen, zones)), "{case}");
    }
}
