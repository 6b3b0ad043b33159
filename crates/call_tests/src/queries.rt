//! What queries on boards that are written out are answered: their targets, their rule lines and their retractions.

use crate::claims::position;
use crate::demands::count;
use board_base::{Castle, Colour, Kind, Man, Move, Square, Unmove};
use fen_text::read_four_fields;
use query_base::{Claim, RuleLine, covers, target};
use static_rules::{rights_have_homes, supports};
use unmove_gen::{Unmoves, is_unmove, pred};

const ARRAY: &[u8] = b"rnbqkbnr/pppppppp/8/8/8/8/PPPPPPPP/RNBQKBNR w KQkq -";

fn man(colour: Colour, kind: Kind) -> Option<Man> {
    Some(Man { colour, kind })
}

fn step(from: Square, to: Square) -> Move {
    Move {
        from,
        to,
        promo: None,
    }
}

/// What the target of a claim about the array bars and holds, and whether the query and the target cover each other.
#[derive(Clone, Copy, PartialEq, Eq, Debug)]
struct Asked {
    barred: Option<Move>,
    long: bool,
    short: bool,
    covered: bool,
    covering: bool,
}

fn asked_by(claim: &Claim) -> Option<Asked> {
    let query = position(ARRAY)?;
    let found = target(&query, claim);
    Some(Asked {
        barred: found.barred,
        long: found.held.has(Castle::WhiteLong),
        short: found.held.has(Castle::WhiteShort),
        covered: covers(&query, &found),
        covering: covers(&found, &query),
    })
}

/// Whether the target of a claim that the array is illegal is the query.
fn asks_the_same() -> Option<bool> {
    let query = position(ARRAY)?;
    Some(target(&query, &Claim::Illegal) == query)
}

fn e2e4() -> Move {
    step(Square::known(12), Square::known(28))
}

#[test]
fn targets_ask_more(rt: HostRuntime) {
    let last = Asked {
        barred: Some(e2e4()),
        long: false,
        short: false,
        covered: true,
        covering: false,
    };
    let lost = Asked {
        barred: None,
        long: true,
        short: false,
        covered: true,
        covering: false,
    };
    assert_eq!(rt; asks_the_same(), Some(true));
    assert_eq!(rt; asked_by(&Claim::Last(e2e4())), Some(last));
    assert_eq!(rt; asked_by(&Claim::Lost(Castle::WhiteLong)), Some(lost));
}

/// Whether a rule line supports the array with one square changed, and the array.
#[derive(Clone, Copy, PartialEq, Eq, Debug)]
struct Found {
    changed: bool,
    array: bool,
}

fn found_with(square: u8, there: Option<Man>, rule: &RuleLine) -> Option<Found> {
    let array = read_four_fields(ARRAY)?;
    let mut changed = array;
    changed.board.put(Square::new(square)?, there);
    Some(Found {
        changed: supports(&changed, rule),
        array: supports(&array, rule),
    })
}

/// Each rule line supports the array with one square changed, and not the array.
#[test]
fn finds_each_reason(rt: HostRuntime) {
    let pawn = man(Colour::White, Kind::Pawn);
    let want = Found {
        changed: true,
        array: false,
    };
    for (square, there, rule) in [
        (7, None, RuleLine::Rights),
        (60, None, RuleLine::Kings),
        (0, pawn, RuleLine::Ranks),
        (45, man(Colour::White, Kind::Knight), RuleLine::Check),
        (16, pawn, RuleLine::Count(Colour::White)),
    ] {
        assert_eq!(rt;
            (square, found_with(square, there, &rule)),
            (square, Some(want))
        );
    }
    let neither = Found {
        changed: false,
        array: false,
    };
    assert_eq!(rt;
        found_with(16, pawn, &RuleLine::Count(Colour::Black)),
        Some(neither)
    );
    rights_have_homes();
}

/// A board where only the pawn of d6 can have moved last.
const AFTER_A_CAPTURE: &[u8] = b"4k3/8/3P4/8/8/8/8/4K2R b K -";

/// The pawn's capture en passant.
fn capture_en_passant() -> Unmove {
    Unmove {
        mv: step(Square::known(34), Square::known(43)),
        captured: Some(Kind::Pawn),
        ep: true,
    }
}

/// The sixth retraction, and how many there are.
fn sixth_of_all() -> Option<(Unmove, u8)> {
    let query = read_four_fields(AFTER_A_CAPTURE)?;
    let mut list = Unmoves::new(&query);
    for _ in 0..5 {
        list.next()?;
    }
    Some((list.next()?, count(&query)?))
}

/// Before the capture the move that it answers, the man on d5 and the side to move; None if it isn't listed.
fn before_the_capture() -> Option<(Option<Move>, Option<Man>, Colour)> {
    let query = read_four_fields(AFTER_A_CAPTURE)?;
    let capture = capture_en_passant();
    if is_unmove(&query, &capture) {
        let before = pred(&query, &capture);
        Some((before.only, before.board.at(Square::known(35)), before.turn))
    } else {
        None
    }
}

/// Only the pawn can have moved last.
#[test]
fn takes_back_a_capture_en_passant(rt: HostRuntime) {
    assert_eq!(rt; sixth_of_all(), Some((capture_en_passant(), 13)));
    let d7d5 = step(Square::known(51), Square::known(35));
    let want = (Some(d7d5), man(Colour::Black, Kind::Pawn), Colour::White);
    assert_eq!(rt; before_the_capture(), Some(want));
}
