//! Queries of games at odds and with a half-move clock: what covers, supports and reaches them, and their retractions.

ghost use Rattle.query_base.specs.Asked.{IsShortClock};

use board_base::{Board, Castle, CastleSet, Colour, Odds, SquareSet, read_unmove};
use fen_text::read_four_fields;
use game_text::{read_game, replay_from};
use play_rules::State;
use query_base::{Claim, Query, RuleLine, covers, is_array, matches_end, target};
use static_rules::{close, supports};
use std::alloc::Global;
use unmove_gen::{Unmoves, is_unmove, pred};

fn odds(bits: u64) -> Option<Odds> {
    Odds::new(SquareSet::from_bits(bits))
}

/// The clock, if it is one that a query can demand.
fn short(clock: Option<u16>) -> Option<u16>
    ensures { IsShortClock result }
{
    match clock {
        Some(n) if n <= 9_999 => Some(n),
        _ => None,
    }
}

/// The query of a FEN at these odds and with this clock.
fn asked(fen: &str, bits: u64, clock: Option<u16>) -> Option<Query> {
    let mut query = read_four_fields(fen.as_bytes())?;
    query.odds = odds(bits)?;
    query.clock = short(clock);
    Some(query)
}

const KINGS: &str = "4k3/8/8/8/8/8/8/4K3 w - -";

const NO_KNIGHT: &str = "rnbqkbnr/pppppppp/8/8/8/8/PPPPPPPP/R1BQKBNR w KQkq -";

/// Odds and clock of a query, those of another, and whether the first covers the second: if the odds are the same, and a clock that
/// the first demands too.
const COVERINGS: [(u64, Option<u16>, u64, Option<u16>, bool); 8] = [
    (0, None, 0, None, true),
    (2, None, 2, None, true),
    (2, None, 0, None, false),
    (0, None, 2, None, false),
    (0, None, 0, Some(3), true),
    (0, Some(3), 0, Some(3), true),
    (0, Some(3), 0, None, false),
    (0, Some(3), 0, Some(2), false),
];

/// Whether the query of the kings at the first odds and clock covers the one at the others.
fn is_covering(
    bits: u64,
    clock: Option<u16>,
    other_bits: u64,
    other_clock: Option<u16>,
) -> Option<bool> {
    let query = asked(KINGS, bits, clock)?;
    let other = asked(KINGS, other_bits, other_clock)?;
    Some(covers(&query, &other))
}

#[test]
fn covers_at_the_same_odds(rt: HostRuntime) {
    for (bits, clock, other_bits, other_clock, want) in COVERINGS {
        let row = (bits, clock, other_bits, other_clock);
        let answer = is_covering(bits, clock, other_bits, other_clock);
        assert_eq!(rt; (row, answer), (row, Some(want)));
    }
}

/// The odds and the clock in the target of a claim about the query of the kings at odds of the knight and with a clock of 7.
fn demands_in_target(claim: Claim) -> Option<(u64, Option<u16>)> {
    let query = asked(KINGS, 2, Some(7))?;
    if query.barred.is_some() {
        return None;
    }
    let asked = target(&query, &claim);
    Some((asked.odds.set().bits(), asked.clock))
}

/// The target of a claim has the query's odds and its clock.
#[test]
fn keeps_demands_in_targets(rt: HostRuntime) {
    let illegal = demands_in_target(Claim::Illegal);
    let lost = demands_in_target(Claim::Lost(Castle::WhiteShort));
    let want = Some((2, Some(7)));
    assert_eq!(rt; (illegal, lost), (want, want));
}

const NO_ROOK: &str = "rnbqkbnr/pppppppp/8/8/8/8/PPPPPPPP/RNBQKBN1 w Qkq -";

/// FEN, odds and clock of a query, and whether the game without moves reaches it.
const STARTS: [(&str, u64, Option<u16>, bool); 5] = [
    (NO_KNIGHT, 2, None, true),
    (NO_KNIGHT, 2, Some(0), true),
    (NO_KNIGHT, 2, Some(1), false),
    (NO_KNIGHT, 0, None, false),
    (NO_ROOK, 1 << 7, None, true),
];

fn is_start(fen: &str, bits: u64, clock: Option<u16>) -> Option<bool> {
    Some(is_array(&asked(fen, bits, clock)?))
}

/// Whether the query of a FEN at these odds is still the array's if all castlings are held.
fn is_start_with_all_rights(fen: &str, bits: u64) -> Option<bool> {
    let mut query = asked(fen, bits, None)?;
    query.held = CastleSet::all();
    Some(is_array(&query))
}

/// The game without moves reaches the array at the query's odds, with a clock of 0 or none, and no right that never was.
#[test]
fn knows_the_array_at_odds(rt: HostRuntime) {
    for (fen, bits, clock, want) in STARTS {
        let row = (bits, clock);
        assert_eq!(rt; (row, is_start(fen, bits, clock)), (row, Some(want)));
    }
    assert_eq!(rt; is_start_with_all_rights(NO_ROOK, 1 << 7), Some(false));
}

/// Whether b2b3, g8f6 and c1b2 at odds of the knight end with a query's board and this clock.
fn ends_so(alloc: Global, clock: Option<u16>) -> Option<bool> {
    let moves = read_game(alloc, b"b2b3 g8f6 c1b2").ok()?;
    let state = replay_from(odds(2)?, &moves).ok()?;
    let query = asked(
        "rnbqkb1r/pppppppp/5n2/8/8/1P6/PBPPPPPP/R2QKBNR b KQkq -",
        2,
        clock,
    )?;
    let last = moves.last().copied();
    Some(matches_end(&state, last, &query))
}

/// The clock at the start of a game at these odds.
fn first_clock(bits: u64) -> Option<u32> {
    Some(State::start_of(odds(bits)?).clock())
}

/// After b2b3, g8f6 and c1b2 at odds of the knight the clock is 2.
#[test]
fn matches_the_clock(rt: HostRuntime) {
    assert_eq!(rt; first_clock(2), Some(0));
    for (clock, want) in [
        (None, true),
        (Some(2), true),
        (Some(0), false),
        (Some(1), false),
        (Some(3), false),
    ] {
        assert_eq!(rt; (clock, ends_so(rt.alloc(), clock)), (clock, Some(want)));
    }
}

/// Of which games a rule line supports a query: of those at some odds, and of those at none.
#[derive(Clone, Copy, PartialEq, Eq, Debug)]
struct Supported {
    at_odds: bool,
    at_none: bool,
}

const AT_BOTH: Supported = Supported {
    at_odds: true,
    at_none: true,
};

const AT_ODDS: Supported = Supported {
    at_odds: true,
    at_none: false,
};

const AT_NEITHER: Supported = Supported {
    at_odds: false,
    at_none: false,
};

/// A FEN, odds, a rule line, and of which games it supports the query.
const SUPPORTS: [(&str, u64, RuleLine, Supported); 7] = [
    (
        "4k3/8/8/8/8/1P6/1PPPPPPP/4K3 w - -",
        1 << 8,
        RuleLine::Count(Colour::White),
        AT_ODDS,
    ),
    (
        "4k3/8/8/8/8/1P6/1PPPPPPP/4K3 w - -",
        1 << 48,
        RuleLine::Count(Colour::White),
        AT_NEITHER,
    ),
    (
        "rnbqkbnr/pppppppp/8/8/8/N4N2/PPPPPPPP/R1BQKB1R w KQkq -",
        2,
        RuleLine::Count(Colour::White),
        AT_ODDS,
    ),
    (
        "4k3/8/8/8/8/8/8/4K2R w K -",
        1 << 7,
        RuleLine::Rights,
        AT_ODDS,
    ),
    (
        "4k3/8/8/8/8/8/8/4K2R w K -",
        1,
        RuleLine::Rights,
        AT_NEITHER,
    ),
    (
        "4k3/8/8/8/8/8/8/4K3 w - -",
        1 << 7,
        RuleLine::Kings,
        AT_NEITHER,
    ),
    (
        "4k3/8/8/8/8/8/8/4K2R w Q -",
        1 << 7,
        RuleLine::Rights,
        AT_BOTH,
    ),
];

/// Of which games a rule line supports the query of a FEN.
fn support_of(fen: &str, bits: u64, rule: &RuleLine) -> Option<Supported> {
    let query = asked(fen, bits, None)?;
    let plain = asked(fen, 0, None)?;
    Some(Supported {
        at_odds: supports(&query, rule),
        at_none: supports(&plain, rule),
    })
}

/// What is found of a query with a white pawn on a2: whether the frozen pawn supports it, and whether some rule line closes it.
#[derive(Clone, Copy, PartialEq, Eq, Debug)]
struct Found {
    supported: bool,
    closed: bool,
}

/// What is found if the games begin at these odds.
fn found_of_a_pawn(bits: u64) -> Option<Found> {
    let query = asked("4k3/8/8/8/8/8/P7/4K3 w - -", bits, None)?;
    let frozen = RuleLine::Frozen(SquareSet::from_bits(1 << 8));
    Some(Found {
        supported: supports(&query, &frozen),
        closed: close(&query).is_some(),
    })
}

#[test]
fn supports_at_odds(rt: HostRuntime) {
    for (fen, bits, rule, want) in SUPPORTS {
        let answer = support_of(fen, bits, &rule);
        assert_eq!(rt; (bits, answer), (bits, Some(want)));
    }
    let both = Found {
        supported: true,
        closed: true,
    };
    let neither = Found {
        supported: false,
        closed: false,
    };
    assert_eq!(rt; found_of_a_pawn(1 << 8), Some(both));
    assert_eq!(rt; found_of_a_pawn(0), Some(neither));
}

/// How many retractions a query has; None if there are more than 199.
pub(crate) fn count(query: &Query) -> Option<u8> {
    let mut list = Unmoves::new(query);
    for counted in 0..200 {
        if list.next().is_none() {
            return Some(counted);
        }
    }
    None
}

/// How many retractions the query of the kings has at these odds and with this clock.
fn count_of_kings(bits: u64, clock: Option<u16>) -> Option<u8> {
    count(&asked(KINGS, bits, clock)?)
}

/// Odds and clock, and how many retractions there are: of quiet moves of the king, of captures, of both.
const COUNTS: [(u64, Option<u16>, u8); 5] = [
    (0, None, 25),
    (0, Some(0), 20),
    (0, Some(1), 5),
    (0, Some(9_999), 5),
    // Nobody but the kings was there to be captured.
    (0xefff_0000_0000_ffef, None, 5),
];

#[test]
fn lists_what_the_clock_allows(rt: HostRuntime) {
    for (bits, clock, want) in COUNTS {
        let row = (bits, clock);
        assert_eq!(rt; (row, count_of_kings(bits, clock)), (row, Some(want)));
    }
}

/// The odds and the clock of the predecessor of the kings at odds of the knight; None if the retraction isn't listed.
fn demands_before(clock: u16, text: &str) -> Option<(u64, Option<u16>)> {
    let u = read_unmove(text.as_bytes())?;
    let query = asked(KINGS, 2, Some(clock))?;
    if is_unmove(&query, &u) {
        let earlier = pred(&query, &u);
        Some((earlier.odds.set().bits(), earlier.clock))
    } else {
        None
    }
}

/// Whether this retraction of the kings is listed with this clock.
fn is_listed(clock: u16, text: &str) -> Option<bool> {
    let u = read_unmove(text.as_bytes())?;
    Some(is_unmove(&asked(KINGS, 0, Some(clock))?, &u))
}

/// The predecessor has the same odds, and one move less on the clock; behind a clock of 0 none is demanded.
#[test]
fn goes_back_in_time(rt: HostRuntime) {
    for (clock, text, before) in [
        (2, "d7e8", Some(1)),
        (1, "d7e8", Some(0)),
        (0, "d7e8xn", None),
        (9_999, "d7e8", Some(9_998)),
    ] {
        assert_eq!(rt;
            (clock, demands_before(clock, text)),
            (clock, Some((2, before)))
        );
    }
    assert_eq!(rt;
        (is_listed(2, "d7e8xn"), is_listed(0, "d7e8")),
        (Some(false), Some(false))
    );
}

/// What is found of a predecessor: whether White's short castling is held, whether the rights support it, whether some rule line
/// closes it, and whether its board is the array.
#[derive(Clone, Copy, PartialEq, Eq, Debug)]
struct Before {
    held: bool,
    supported: bool,
    closed: bool,
    array: bool,
}

/// What is found before White's short castling at odds of its rook; None if it isn't listed.
fn before_castling() -> Option<Before> {
    let castled = read_unmove(b"e1g1")?;
    let query = asked("4k3/8/8/8/8/8/5PPP/5RK1 b - -", 1 << 7, None)?;
    if is_unmove(&query, &castled) {
        let earlier = pred(&query, &castled);
        Some(Before {
            held: earlier.held.has(Castle::WhiteShort),
            supported: supports(&earlier, &RuleLine::Rights),
            closed: close(&earlier).is_some(),
            array: earlier.board.is_same(&Board::array()),
        })
    } else {
        None
    }
}

/// A castling is taken back also at odds of its rook, and what is held before it is closed.
#[test]
fn takes_back_a_castling_at_odds_of_the_rook(rt: HostRuntime) {
    let want = Before {
        held: true,
        supported: true,
        closed: true,
        array: false,
    };
    assert_eq!(rt; before_castling(), Some(want));
}
