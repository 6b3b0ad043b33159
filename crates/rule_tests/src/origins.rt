//! Where the last move can have ended, on written boards. A set is the number whose bit `s` stands for square `s`.

use check_origins::origins;
use fen_text::read_four_fields;

fn origins_in(text: &str) -> Option<u64> {
    let query = read_four_fields(text.as_bytes())?;
    Some(origins(&query.board, query.turn).bits())
}

/// Case, text, set.
#[test]
fn finds_origins(rt: HostRuntime) {
    for (case, text, bits) in [
        (
            "two knights check",
            "4k3/2N3N1/8/8/8/8/8/4K3 b - -",
            0x0000000000000000,
        ),
        (
            "the knight of c7 checks",
            "4k3/2N5/8/8/8/8/8/4K3 b - -",
            0x0004000000000000,
        ),
        (
            "the rook of e1 checks from afar",
            "4k3/8/8/8/8/8/8/K3R3 b - -",
            0xffffffffffffffff,
        ),
    ] {
        assert_eq!(rt; origins_in(text), Some(bits), "{case}");
    }
}
