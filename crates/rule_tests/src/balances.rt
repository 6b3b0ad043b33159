//! The rule on the balance of captures, on a written board.

use balance_rule::balances;
use board_base::{Odds, SquareSet};
use cage_rules::greatest_as_array;
use capture_prices::{Gate, Prices};
use fen_text::read_four_fields;
use price_search::{PriceDesk, find_balance};
use std::alloc::Global;

/// The pawns of e2, a7, f7 and g7, who have never moved.
const AT_HOME: u64 = 0x0061_0000_0000_1000;

/// The king of d7 with them.
const WITH_KING: u64 = AT_HOME | 1 << 51;

/// Before Black's last move c6xb5 in a problem by T. R. Dawson, if it took a bishop. White has two bishops on light squares, so one was
/// promoted on such a square.
const TWO_BISHOPS: &str = "1KRqb3/p2krpp1/2ppp3/PB6/BrPPP3/1p1P4/2p1P3/Q7 b - -";

/// Whether the set and these prices support the query of that problem, at these odds: white pawns pay so much on light squares of the g file,
/// so much elsewhere, and black pawns nothing. None if these can't be read.
fn is_balanced(odds: u64, set: u64, on_g8: u8, elsewhere: u8) -> Option<bool> {
    let mut query = read_four_fields(TWO_BISHOPS.as_bytes())?;
    query.odds = Odds::new(SquareSet::from_bits(odds))?;
    let mut white = [elsewhere; 16];
    white[13] = on_g8;
    let prices = Prices::new(&white, &[0; 16], &[])?;
    Some(balances(&query, SquareSet::from_bits(set), &prices))
}

/// Case, odds, set, what white pawns pay on light squares of the g file and elsewhere, and whether these prices support the query, where
/// black pawns pay nothing. White's pawns captured four men at least, one of them on g8, and Black is missing three.
#[test]
fn weighs_captures(rt: HostRuntime) {
    let rows: [(&str, u64, u64, u8, u8, bool); 6] = [
        ("four captures, three men", 0, AT_HOME, 1, 1, true),
        ("the greatest prices", 0, AT_HOME, 96, 96, true),
        ("one capture for nothing", 0, AT_HOME, 0, 1, false),
        (
            "a pawn of g7 that may have moved",
            0,
            0x0021_0000_0000_1000,
            1,
            1,
            false,
        ),
        ("a king that isn't frozen", 0, WITH_KING, 1, 1, false),
        (
            "a pawn of e2 that was left out",
            1 << 12,
            AT_HOME,
            1,
            1,
            false,
        ),
    ];
    for (case, odds, set, on_g8, elsewhere, supported) in rows {
        let balanced = is_balanced(odds, set, on_g8, elsewhere);
        assert_eq!(rt; balanced, Some(supported), "{case}");
    }
}

/// Before the same move, if it took a knight.
const A_KNIGHT: &str = "1KRqb3/p2krpp1/2ppp3/PN6/BrPPP3/1p1P4/2p1P3/Q7 b - -";

/// The array.
const ARRAY: &str = "rnbqkbnr/pppppppp/8/8/8/8/PPPPPPPP/RNBQKBNR w - -";

/// White's pawn of a2 took a man on b3, and Black has all of his. White is without a knight, whom a pawn may have taken.
const WHITE_TOOK: &str = "rnbqkbnr/pppppppp/8/8/8/1P6/1PPPPPPP/R1BQKBNR w - -";

/// The same of Black.
const BLACK_TOOK: &str = "r1bqkbnr/1ppppppp/1p6/8/8/8/PPPPPPPP/RNBQKBNR b - -";

/// Whether equal prices support the position with the greatest set that is as in the array, and whether some prices are found. None if
/// it can't be read.
fn is_found(alloc: Global, position: &str) -> Option<(bool, bool)> {
    let query = read_four_fields(position.as_bytes())?;
    let equal = Prices::new(&[24; 16], &[24; 16], &[])?;
    let supported = balances(&query, greatest_as_array(&query), &equal);
    let mut desk = PriceDesk::new(alloc);
    Some((supported, find_balance(&query, &mut desk).is_some()))
}

/// Position, whether equal prices support it, and whether some prices are found.
#[test]
fn finds_prices(rt: HostRuntime) {
    let rows: [(&str, (bool, bool)); 5] = [
        (TWO_BISHOPS, (true, true)),
        (A_KNIGHT, (false, true)),
        (WHITE_TOOK, (false, true)),
        (BLACK_TOOK, (false, true)),
        (ARRAY, (false, false)),
    ];
    for (position, found) in rows {
        assert_eq!(rt; is_found(rt.alloc(), position), Some(found), "{position}");
    }
}

/// After T. R. Dawson, 1939. Two pawns of the e file stand in each other's way.
const IN_THE_WAY: &str = "BB4N1/p5p1/pp2p1P1/2Ppbbp1/1P2k1nR/2P2pP1/1PrR1K2/2N5 w - -";

/// The prices that are found for the position. None if it can't be read, or none are found.
fn found_prices(alloc: Global, position: &str) -> Option<Prices> {
    let query = read_four_fields(position.as_bytes())?;
    let mut desk = PriceDesk::new(alloc);
    let (_, prices) = find_balance(&query, &mut desk)?;
    Some(prices)
}

/// Position, and the prices that are found, by an independent program: flat ones, and elsewhere those with the fewest exceptions, as Black's
/// captures on light squares alone, or all but Black's on the e file, with a gate on e6.
#[test]
fn finds_plain_prices(rt: HostRuntime) {
    let on_light: [u8; 16] = [0, 1, 0, 1, 0, 1, 0, 1, 0, 1, 0, 1, 0, 1, 0, 1];
    let but_on_e: [u8; 16] = [1, 1, 1, 1, 1, 1, 1, 1, 0, 0, 1, 1, 1, 1, 1, 1];
    let on_e6 = Gate {
        square: 44,
        toll: 1,
    };
    let rows: [(&str, Option<Prices>); 3] = [
        (TWO_BISHOPS, Prices::new(&[1; 16], &[1; 16], &[])),
        (A_KNIGHT, Prices::new(&[0; 16], &on_light, &[])),
        (IN_THE_WAY, Prices::new(&[1; 16], &but_on_e, &[on_e6])),
    ];
    for (position, prices) in rows {
        assert_eq!(rt; found_prices(rt.alloc(), position), prices, "{position}");
    }
}
