//! The rules on promoted men and on captures by pawns, on written boards.

use board_base::{Colour, Odds, Potentials, SquareSet};
use fen_text::read_four_fields;
use query_base::RuleLine;
use static_rules::supports;

/// Whether the rule line supports the query of a FEN, of games at odds of these squares. None if these can't be read.
fn supports_at(text: &str, odds: u64, rule: &RuleLine) -> Option<bool> {
    let mut query = read_four_fields(text.as_bytes())?;
    query.odds = Odds::new(SquareSet::from_bits(odds))?;
    Some(supports(&query, rule))
}

/// The rule on White's captures with this set and these potentials.
fn white_captures(set: u64, u: &[i8], v: [i8; 8]) -> Option<RuleLine> {
    let p = Potentials::new(u, &v)?;
    Some(RuleLine::Caps(Colour::White, SquareSet::from_bits(set), p))
}

/// b7 and d7, and b2 and d2: the pawns that shut in a bishop of c8, and of c1.
const ABOUT_C8: u64 = 0x000a000000000000;

const ABOUT_C1: u64 = 0xa00;

/// Text, side, set, whether the rule on promoted men supports it. White's bishop of c1, or Black's of c8, is away from home while the
/// pawns about it have never moved.
#[test]
fn tells_promoted_men(rt: HostRuntime) {
    let on_f4 = "rnbqkbnr/pppppppp/8/8/5B2/8/PPPPPPPP/RN1QKBNR w KQkq -";
    let on_e4 = "rnbqkbnr/pppppppp/8/8/4B3/8/PPPPPPPP/RN1QKBNR w KQkq -";
    let seven = "rnbqkbnr/pppppppp/8/8/5B2/8/PPPP1PPP/RN1QKBNR w KQkq -";
    let array = "rnbqkbnr/pppppppp/8/8/8/8/PPPPPPPP/RNBQKBNR w KQkq -";
    let black = "rn1qkbnr/pppppppp/8/5b2/8/8/PPPPPPPP/RNBQKBNR w KQkq -";
    let rows: [(&str, Colour, u64, bool); 7] = [
        (on_f4, Colour::White, ABOUT_C1, true),
        (on_f4, Colour::White, 0, false),
        (on_f4, Colour::Black, ABOUT_C1, false),
        (on_e4, Colour::White, ABOUT_C1, true),
        (seven, Colour::White, ABOUT_C1, false),
        (array, Colour::White, 0xffff, false),
        (black, Colour::Black, ABOUT_C8, true),
    ];
    for (text, side, bits, answer) in rows {
        let rule = RuleLine::Promo(side, SquareSet::from_bits(bits));
        assert_eq!(rt; supports_at(text, 0, &rule), Some(answer));
    }
}

/// Whether the rule on White's captures supports the query of a FEN with this set, u = 1 0 0 0 0 0 0 and this last one, and v = -1 for b and
/// this one for a.
fn supports_with(text: &str, set: u64, last: i8, first: i8) -> Option<bool> {
    let u = [1, 0, 0, 0, 0, 0, 0, last];
    let rule = white_captures(set, &u, [first, -1, 0, 0, 0, 0, 0, 0])?;
    supports_at(text, 0, &rule)
}

/// Text, set, the last u, the first v, whether the rule supports it with these.
#[test]
fn tells_captures(rt: HostRuntime) {
    let whole = "rnbqkbnr/pppppppp/8/8/8/1P6/1PPPPPPP/RNBQKBNR w KQkq -";
    let bishop = "rn1qkbnr/pppppppp/8/8/8/1P6/1PPPPPPP/RNBQKBNR w KQkq -";
    let knight = "r1bqkbnr/pppppppp/8/8/8/1P6/1PPPPPPP/RNBQKBNR w KQkq -";
    let seven = "rnbqkbnr/pppppppp/8/8/8/8/1PPPPPPP/RNBQKBNR w KQkq -";
    let rows: [(&str, u64, i8, i8, bool); 9] = [
        (whole, 0, 1, 0, true),
        (whole, 0, 2, 0, false),
        (whole, 0, 0, 0, false),
        (whole, 0, 1, 1, false),
        (whole, 0xff00, 1, 0, false),
        (bishop, ABOUT_C8, 1, 0, true),
        (bishop, 0, 1, 0, false),
        (knight, ABOUT_C8, 1, 0, false),
        (seven, 0, 1, 0, false),
    ];
    for (text, bits, last, first, answer) in rows {
        assert_eq!(rt; supports_with(text, bits, last, first), Some(answer));
    }
}

/// Whether the rule on White's captures supports the query of a FEN with no set, u = 0 but for this last one, and v = 0.
fn supports_no_set(text: &str, odds: u64, last: i8) -> Option<bool> {
    let rule = white_captures(0, &[0, 0, 0, 0, 0, 0, last], [0; 8])?;
    supports_at(text, odds, &rule)
}

/// Text, odds, the last u, and whether the rule on White's captures supports it so, which it doesn't at no odds. The pawn of b3 can have
/// come from b2, unless nobody began there; and Black is missing a knight, unless it began without him.
#[test]
fn tells_captures_at_odds(rt: HostRuntime) {
    let from_a2 = "rnbqkbnr/pppppppp/8/8/8/1P6/2PPPPPP/RNBQKBNR w KQkq -";
    let no_knight = "r1bqkbnr/pppppppp/8/8/8/1P6/2PPPPPP/RNBQKBNR w KQkq -";
    let rows: [(&str, u64, i8, bool); 6] = [
        (from_a2, 1 << 9, 1, true),
        (from_a2, 1 << 9, 2, false),
        (from_a2, 1 << 8, 1, false),
        (no_knight, 1 << 9, 1, false),
        (no_knight, 1 << 9 | 1 << 57, 1, true),
        (no_knight, 1 << 57, 1, false),
    ];
    for (text, odds, last, answer) in rows {
        let answers = [0, odds].map(|it| supports_no_set(text, it, last));
        assert_eq!(rt; answers, [Some(false), Some(answer)], "{odds}");
    }
}

/// Text, odds, set, and whether the rule on White's promoted men supports it, which it doesn't at no odds. A bishop stands on
/// c1 or f1; at odds of that bishop he isn't the one of the array, and if another pawn was left out, seven are as many as there were.
#[test]
fn tells_promoted_men_at_odds(rt: HostRuntime) {
    let array = "rnbqkbnr/pppppppp/8/8/8/8/PPPPPPPP/RNBQKBNR w KQkq -";
    let seven = "rnbqkbnr/pppppppp/8/8/8/8/PPPP1PPP/RNBQKBNR w KQkq -";
    let rows: [(&str, u64, u64, bool); 6] = [
        (array, 1 << 2, 0, true),
        (array, 1 << 2, ABOUT_C1, true),
        (array, 1 << 5, 0, true),
        (seven, 1 << 2, 0, false),
        (seven, 1 << 2 | 1 << 12, 0, true),
        (seven, 1 << 58, 0, false),
    ];
    for (text, odds, set, answer) in rows {
        let rule = RuleLine::Promo(Colour::White, SquareSet::from_bits(set));
        assert_eq!(rt; supports_at(text, 0, &rule), Some(false));
        assert_eq!(rt; supports_at(text, odds, &rule), Some(answer), "{odds}");
    }
}
