//! The paragraph of a ledger, of lines that solutions and rules of the sentences give.

use crate::ledgers::{query, squares};
use board_base::{Colour, Square, SquareSet, read_square};
use ledger_lines::{Line, Losses, Manner, Taker, Takings};
use ledger_prose::{news_of_all, tell_ledger_prose};
use ledger_search::Range;
use std::alloc::{AllocError, Global};

const DAWSON: &str = "1KRqb3/p2krpp1/3pp3/Pp6/BrPPP3/1p1P4/2p1P3/Q7 w - -";

const DAWSON_TOLD: &str = "\
White lacks a rook, the dark bishop, both knights and two pawns. Black's pawns took all six:
    h7xg6xf5xe4xd3xc2, and one on a dark square of the b-file. Black lacks the dark bishop and both
    knights. White's pawns took all three: f2-e4 one, and two more. No capture is to spare. White's
    g-pawn was taken as a pawn. The bishop on a4 is not a promoted pawn.
";

/// A capture on a dark square of the b-file.
const ON_B_DARK: [u8; 16] = [0, 0, 1, 0, 0, 0, 0, 0, 0, 0, 0, 0, 0, 0, 0, 0];

/// Of a pawn who may have made more captures.
const OPEN_TOLD: &str = "\
Black's pawns took all six; among these captures: b7/c7-b3 at least one.
";

const DOUBLED: &str = "r1b1k2r/1pp2ppp/p1p5/4p3/4P3/5N2/PPP2PPP/R1B1K2R w - -";

/// Of a pawn whose capture is known, with no number of captures.
const DOUBLED_TOLD: &str = "\
White lacks the queen, the light bishop, a knight and a pawn. Black's pawns made at least one
    capture: d7xc6. Black lacks the queen, the dark bishop and both knights.
";

const ONE_OF_TWO: &str = "4k3/p1p1p1p1/8/8/8/1P6/1P1PPPPP/RNBQKBNR w - -";

/// The same of a pawn with two homes, behind pawns who fell.
const ONE_OF_TWO_TOLD: &str = "\
White lacks a pawn. Black lacks eleven men. White's pawns made at least one capture: a2/c2-b3.
    Black's d-, f- and h-pawns were taken as pawns. The bishop of f8 was taken at home, but not by a
    pawn. The rook on h1 is not a promoted pawn. The men on c1 and f1 never moved.
";

const TWO_WAYS: &str = "4k3/8/2p5/8/4p3/8/8/4K3 w - -";

/// Of two pawns whose captures are known.
const TWO_TOLD: &str = "\
Black's pawns made at least these captures: d7xc6, g7-e4 at least two.
";

/// Of all pawns of a side.
const EIGHT_TOLD: &str = "\
All of Black's pawns were taken as pawns.
";

/// Both castlings are held, so that nothing is said of the king's and the rooks' never having moved.
const SAMPLE: &str = "r3k2r/2pppp2/1p4p1/5N2/1pP2Q2/2pPPP2/1b2KPP1/8 w kq -";

const SAMPLE_TOLD: &str = "\
White lacks both rooks and a pawn, but is only seven men short. Black's pawns took some of them, at
    most six: g7xf6xe5xd4xc3, a7/b7-b6 at least one. Black lacks four men. White's pawns never
    captured. White's h-pawn was promoted and then taken by a black pawn. White's a- and b-pawns
    were taken, but not by a pawn. The rook of a1 and the knight of b1 were taken by black pawns.
    The rook of h1 was taken, but not by a pawn. The bishop of c1 and the bishop of f1 were taken at
    home, but not by a pawn. White's c-pawn was promoted. The knight on f5 is the promoted pawn of
    f2 or g2. At least one of the men on f4 and f5 is a promoted pawn. The queen on f4 is that of
    d1. The king on e2 never moved.
";

fn losses(queens: u8, rooks: u8, dark_bishops: u8, knights: u8, pawns: u8) -> Losses {
    Losses {
        queens,
        rooks,
        dark_bishops,
        light_bishops: 0,
        knights,
        pawns,
    }
}

fn captures_on(side: Colour, least: u8, most: u8, lacking: u8, least_on: [u8; 16]) -> Line {
    Line::Captures(
        side,
        Takings {
            all: Range { least, most },
            lacking,
            dark: None,
            least_on,
        },
    )
}

fn captures(side: Colour, least: u8, most: u8, lacking: u8) -> Line {
    captures_on(side, least, most, lacking, [0; 16])
}

fn square(name: &str) -> Option<Square> {
    match name.as_bytes() {
        [file, rank] => read_square(*file, *rank),
        _ => None,
    }
}

fn pawn(name: &str, homes: &str, number: u8, exact: bool) -> Option<Line> {
    Some(Line::Pawn(square(name)?, squares(Some(homes))?, number, exact))
}

/// Who fell, how, and on one of which squares, if that is told.
fn fell(name: &str, taker: Taker, manner: Manner, within: Option<&str>) -> Option<Line> {
    let squares = match within {
        None => SquareSet::from_bits(0),
        Some(names) => squares(Some(names))?,
    };
    Some(Line::Fell(square(name)?, taker, manner, squares))
}

fn fell_as_pawn(name: &str) -> Option<Line> {
    fell(name, Taker::Anyone, Manner::AsPawn, None)
}

fn dawson() -> Option<[Line; 9]> {
    Some([
        Line::Unmoved(squares(Some("e2 a7 f7 g7"))?),
        Line::Lacks(Colour::White, losses(0, 1, 1, 2, 2)),
        Line::Lacks(Colour::Black, losses(0, 0, 1, 2, 0)),
        captures(Colour::White, 3, 3, 3),
        captures_on(Colour::Black, 6, 6, 6, ON_B_DARK),
        pawn("e4", "f2", 1, true)?,
        pawn("c2", "h7", 5, true)?,
        Line::Original(squares(Some("a4"))?),
        fell("g2", Taker::Pawn, Manner::AsPawn, None)?,
    ])
}

fn open_way() -> Option<[Line; 2]> {
    Some([
        captures(Colour::Black, 6, 6, 6),
        pawn("b3", "b7 c7", 1, false)?,
    ])
}

fn doubled() -> Option<[Line; 6]> {
    Some([
        Line::Unmoved(squares(Some("a2 b2 c2 f2 g2 h2 b7 c7 f7 g7 h7"))?),
        Line::Lacks(
            Colour::White,
            Losses {
                queens: 1,
                rooks: 0,
                dark_bishops: 0,
                light_bishops: 1,
                knights: 1,
                pawns: 1,
            },
        ),
        Line::Lacks(Colour::Black, losses(1, 0, 1, 2, 0)),
        pawn("e5", "e7", 0, false)?,
        pawn("c6", "d7", 1, true)?,
        Line::Ahead(squares(Some("a6"))?),
    ])
}

fn one_of_two() -> Option<[Line; 9]> {
    Some([
        Line::Unmoved(squares(Some("c1 f1 b2 d2 e2 f2 g2 h2 a7 c7 e7 g7"))?),
        Line::Lacks(Colour::White, losses(0, 0, 0, 0, 1)),
        Line::Lacks(
            Colour::Black,
            Losses {
                queens: 1,
                rooks: 2,
                dark_bishops: 1,
                light_bishops: 1,
                knights: 2,
                pawns: 4,
            },
        ),
        pawn("b3", "a2 c2", 1, true)?,
        Line::Original(squares(Some("h1"))?),
        fell_as_pawn("d7")?,
        fell_as_pawn("f7")?,
        fell_as_pawn("h7")?,
        fell("f8", Taker::Officer, Manner::Anyhow, Some("f8"))?,
    ])
}

fn two_ways() -> Option<[Line; 2]> {
    Some([pawn("c6", "d7", 1, true)?, pawn("e4", "g7", 2, false)?])
}

fn eight() -> Option<[Line; 8]> {
    Some([
        fell_as_pawn("a7")?,
        fell_as_pawn("b7")?,
        fell_as_pawn("c7")?,
        fell_as_pawn("d7")?,
        fell_as_pawn("e7")?,
        fell_as_pawn("f7")?,
        fell_as_pawn("g7")?,
        fell_as_pawn("h7")?,
    ])
}

fn sample() -> Option<[Line; 19]> {
    Some([
        Line::Unmoved(squares(Some("e2 f2 a8 e8 h8"))?),
        Line::Lacks(Colour::White, losses(0, 2, 0, 0, 1)),
        Line::Lacks(Colour::Black, losses(1, 0, 0, 2, 8)),
        captures(Colour::White, 0, 0, 4),
        captures(Colour::Black, 3, 6, 7),
        pawn("c3", "g7", 4, true)?,
        pawn("b6", "a7 b7", 1, false)?,
        Line::Man(square("f4")?, square("d1")?),
        Line::Promoted(square("f5")?, squares(Some("f2 g2"))?),
        Line::Among(1, squares(Some("f4 f5"))?),
        fell("a1", Taker::Pawn, Manner::Anyhow, None)?,
        fell("b1", Taker::Pawn, Manner::Anyhow, None)?,
        fell("c1", Taker::Officer, Manner::Anyhow, Some("c1"))?,
        fell("f1", Taker::Officer, Manner::Anyhow, Some("f1"))?,
        fell("h1", Taker::Officer, Manner::Anyhow, Some("g1 h1"))?,
        fell("a2", Taker::Officer, Manner::Anyhow, None)?,
        fell("b2", Taker::Officer, Manner::Anyhow, None)?,
        fell("h2", Taker::Pawn, Manner::AsPromoted, None)?,
        Line::Became(square("c2")?),
    ])
}

/// Whether the lines are told so of the position.
fn is_told(alloc: Global, fen: &str, lines: &[Line], told: &str) -> Result<bool, AllocError> {
    match query(Some(fen)) {
        None => Ok(false),
        Some(query) => {
            let mut out = Vec::new(alloc);
            tell_ledger_prose(alloc, &query, lines, &mut out)?;
            Ok(out.as_slice() == told.as_bytes())
        }
    }
}

#[test]
fn tells_a_problem(rt: HostRuntime) {
    match dawson() {
        None => assert!(rt; false),
        Some(lines) => {
            assert!(rt; is_told(rt.alloc(), DAWSON, &lines, DAWSON_TOLD) == Ok(true));
        }
    }
}

#[test]
fn tells_of_pawns_who_may_have_captured_more(rt: HostRuntime) {
    match open_way() {
        None => assert!(rt; false),
        Some(lines) => {
            assert!(rt; is_told(rt.alloc(), DAWSON, &lines, OPEN_TOLD) == Ok(true));
        }
    }
}

#[test]
fn tells_of_pawns_without_a_number_of_captures(rt: HostRuntime) {
    match (doubled(), one_of_two(), two_ways()) {
        (Some(doubled), Some(one_of_two), Some(two_ways)) => {
            let alloc = rt.alloc();
            assert!(rt; is_told(alloc, DOUBLED, &doubled, DOUBLED_TOLD) == Ok(true));
            assert!(rt; is_told(alloc, ONE_OF_TWO, &one_of_two, ONE_OF_TWO_TOLD) == Ok(true));
            assert!(rt; is_told(alloc, TWO_WAYS, &two_ways, TWO_TOLD) == Ok(true));
        }
        _ => assert!(rt; false),
    }
}

#[test]
fn tells_of_all_pawns_of_a_side(rt: HostRuntime) {
    match eight() {
        None => assert!(rt; false),
        Some(lines) => {
            assert!(rt; is_told(rt.alloc(), DOUBLED, &lines, EIGHT_TOLD) == Ok(true));
        }
    }
}

#[test]
fn tells_each_sentence(rt: HostRuntime) {
    match sample() {
        None => assert!(rt; false),
        Some(lines) => {
            assert!(rt; is_told(rt.alloc(), SAMPLE, &lines, SAMPLE_TOLD) == Ok(true));
        }
    }
}

fn are_news(
    alloc: Global,
    known: &[Line],
    lines: &[Line],
    news: &[Line],
) -> Result<bool, AllocError> {
    let told = news_of_all(alloc, known, lines)?;
    Ok(told.as_slice() == news)
}

/// Whether of told lines the news are left, if it is known of some men that they never moved.
fn are_news_left(alloc: Global) -> Option<Result<bool, AllocError>> {
    let original = Line::Original(squares(Some("a4"))?);
    let known = [Line::Unmoved(squares(Some("e2 f7"))?)];
    let lines = [Line::Unmoved(squares(Some("e2 a7 f7"))?), original];
    let news = [Line::Unmoved(squares(Some("a7"))?), original];
    Some(are_news(alloc, &known, &lines, &news))
}

#[test]
fn leaves_out_men_of_whom_it_is_known(rt: HostRuntime) {
    assert!(rt; are_news_left(rt.alloc()) == Some(Ok(true)));
}

#[test]
fn tells_nothing_of_no_lines(rt: HostRuntime) {
    assert!(rt; is_told(rt.alloc(), DAWSON, &[], "") == Ok(true));
}
