//! The rule line that closes a query.

use board_base::Colour;
use fen_text::read_four_fields;
use query_base::RuleLine;
use static_rules::close;

fn closes(fen: &[u8]) -> Option<RuleLine> {
    match read_four_fields(fen) {
        Some(query) => close(&query),
        None => None,
    }
}

#[test]
fn closes_queries(rt: HostRuntime) {
    assert!(rt;
        matches!(
            closes(b"4k3/8/8/8/8/8/6P1/4K2B w - -"),
            Some(RuleLine::Frozen(_))
        )
    );
    assert!(rt; closes(b"4k3/8/8/8/8/6P1/8/4K2B w - -").is_none());
    assert!(rt; closes(b"rnbqkbnr/pppppppp/8/8/8/8/PPPPPPPP/RNBQKBNR w KQkq -").is_none());
    assert!(rt;
        matches!(
            closes(b"rnbqkbnr/pppppppp/8/8/8/1P6/1PPPPPPP/RNBQKBNR w KQkq -"),
            Some(RuleLine::Caps(Colour::White, _, _))
        )
    );
    assert!(rt;
        matches!(
            closes(b"rn1qkbnr/pppppppp/8/8/8/1P6/1PPPPPPP/RNBQKBNR w KQkq -"),
            Some(RuleLine::Caps(Colour::White, _, _))
        )
    );
    assert!(rt;
        matches!(
            closes(b"rnbqkbnr/pppppppp/8/8/5B2/8/PPPPPPPP/RN1QKBNR w KQkq -"),
            Some(RuleLine::Promo(Colour::White, _))
        )
    );
}
