//! Claims: their texts, the captures en passant that boards admit, and the queries at which claims are refuted.

ghost use Rattle.std.specs.Prelude.{◌≡◌, ◌<◌, ◌^◌, IfSome, IsTrue, None, length};
ghost use Rattle.cert_text.specs.ClaimLines.{promotes_well};

use arrayvec::ArrayVec;
use board_base::{Castle, CastleSet, Kind, Move, Odds, Square, read_move};
use cert_text::{read_claim, write_claim};
use ep_history::ep_fits;
use fen_text::read_fen;
use query_base::{Claim, Query, RuleLine, target};
use static_rules::supports;

/// Whether this is the text of the claim, and is read as it.
fn is_spelled(claim: Claim, text: &[u8]) -> bool
    requires { IsTrue (promotes_well claim) }
{
    let mut out: ArrayVec<u8, 128> = ArrayVec::new();
    write_claim(&claim, &mut out);
    out.as_slice() == text && read_claim(text) == Some(claim)
}

/// Each kind of claim, and each castling, has its text.
#[test]
fn spells_claims(rt: HostRuntime) {
    let e5d6 = Move {
        from: Square::known(36),
        to: Square::known(43),
        promo: None,
    };
    let e7e8q = Move {
        from: Square::known(52),
        to: Square::known(60),
        promo: Some(Kind::Queen),
    };
    assert!(rt; is_spelled(Claim::Illegal, b"claim illegal"));
    assert!(rt; is_spelled(Claim::Last(e7e8q), b"claim last e7e8q"));
    assert!(rt; is_spelled(Claim::Ep(e5d6), b"claim ep e5d6"));
    assert!(rt; is_spelled(Claim::Lost(Castle::WhiteShort), b"claim lost K"));
    assert!(rt; is_spelled(Claim::Lost(Castle::WhiteLong), b"claim lost Q"));
    assert!(rt; is_spelled(Claim::Lost(Castle::BlackShort), b"claim lost k"));
    assert!(rt; is_spelled(Claim::Lost(Castle::BlackLong), b"claim lost q"));
}

const NO_CLAIMS: [&[u8]; 14] = [
    b"",
    b"claim",
    b"claim illegal\n",
    b"claim  illegal",
    b"Claim illegal",
    b"claim last",
    b"claim last ",
    b"claim last e7e8k",
    b"claim last e2e9",
    b"claim lost",
    b"claim lost KQ",
    b"claim lost w",
    b"claim ep e5d6q",
    b"claim ep  e5d6",
];

#[test]
fn reads_no_other_claims(rt: HostRuntime) {
    for text in NO_CLAIMS {
        assert_eq!(rt; read_claim(text), None);
    }
}

/// The board and the side to move of a FEN, of whose past nothing is demanded.
pub(crate) fn position(fen: &[u8]) -> Option<Query>
    requires { length fen.now < 2 ^ 32 }
    ensures { IfSome result (λ q. q.barred ≡ None) }
{
    match read_fen(fen) {
        Ok((query, _)) => Some(Query {
            board: query.board,
            turn: query.turn,
            odds: Odds::none(),
            held: CastleSet::none(),
            only: None,
            barred: None,
            clock: None,
        }),
        Err(_) => None,
    }
}

/// Whether a row of the captures says what is answered of its board and its capture.
fn is_answered(row: &str) -> Option<bool> {
    let mut cells = row.split('|');
    let fen = cells.next()?.as_bytes();
    let capture = read_move(cells.next()?.as_bytes())?;
    let answers = match cells.next()? {
        "answers" => true,
        "other" => false,
        _ => return None,
    };
    if fen.len() > 100 {
        return None;
    }
    let query = position(fen)?;
    Some(ep_fits(&query.board, query.turn, &capture) == answers)
}

/// A board and a side to move, a capture, whether it answers a double step there, and what the row shows.
const CAPTURES: &str = "\
8/8/8/3pP3/8/8/8/4K3 w - -|e5d6|answers|White captures to the left
8/8/8/2Pp4/8/8/8/4K3 w - -|c5d6|answers|White captures to the right
4k3/8/8/8/3Pp3/8/8/8 b - -|e4d3|answers|Black captures
4k3/8/8/8/3Pp3/8/8/8 w - -|e4d3|other|the other side is to move
8/8/8/3pP3/8/8/8/4K3 w - -|e5d6q|other|a promotion
8/8/8/3pP3/8/8/8/4K3 w - -|e5f6|other|no pawn on f5
8/8/8/3p4/8/8/8/4K3 w - -|e5d6|other|no pawn on e5
8/8/3n4/3pP3/8/8/8/4K3 w - -|e5d6|other|a man on d6
8/3n4/8/3pP3/8/8/8/4K3 w - -|e5d6|other|a man on d7
8/8/8/3pP3/4K3/8/8/8 w - -|e5d6|answers|the pawn of d5 attacks the king, and is captured
8/8/8/K2pP2r/8/8/8/8 w - -|e5d6|other|the capture opens the rank to the king
4r3/8/8/3pP3/8/8/8/4K3 w - -|e5d6|other|the capture opens the file to the king
b7/8/8/3pP3/8/8/8/7K w - -|e5d6|other|the capture opens the diagonal to the king
8/8/8/3pP3/8/8/8/K6K w - -|e5d6|answers|neither of two kings is left attacked
7r/8/8/3pP3/8/8/8/K6K w - -|e5d6|other|one of two kings is attacked
8/8/8/3pP3/8/8/8/8 w - -|e5d6|answers|without a king none is left attacked";

#[test]
fn tells_captures_that_fit(rt: HostRuntime) {
    for row in CAPTURES.lines() {
        assert_eq!(rt; is_answered(row), Some(true), "{row}");
    }
}

/// What is barred in the target of a claim of this capture, if all else in it is as in the query.
fn barred_by(capture: &[u8]) -> Option<Option<Move>> {
    let query = position(b"8/8/8/3pP3/8/8/8/4K3 w - -")?;
    let found = target(&query, &Claim::Ep(read_move(capture)?));
    let mut rest = found;
    rest.barred = None;
    if rest == query {
        Some(found.barred)
    } else {
        None
    }
}

/// The double step is barred if the capture fits, and nothing elsewhere.
#[test]
fn bars_the_double_step(rt: HostRuntime) {
    let d7d5 = Move {
        from: Square::known(51),
        to: Square::known(35),
        promo: None,
    };
    let barred = [barred_by(b"e5d6"), barred_by(b"e5d6q"), barred_by(b"e5f6")];
    assert_eq!(rt; barred, [Some(Some(d7d5)), Some(None), Some(None)]);
}

/// What is found if White's king stands alone on e1: which of Black's castlings are held in the target of a claim that the long one is
/// lost, and whether the rule line of rights supports the target and the query.
#[derive(Clone, Copy, PartialEq, Eq, Debug)]
struct Held {
    long: bool,
    short: bool,
    supported: bool,
    query_supported: bool,
}

fn held_without_men() -> Option<Held> {
    let query = position(b"8/8/8/8/8/8/8/4K3 w - -")?;
    let lost = target(&query, &Claim::Lost(Castle::BlackLong));
    Some(Held {
        long: lost.held.has(Castle::BlackLong),
        short: lost.held.has(Castle::BlackShort),
        supported: supports(&lost, &RuleLine::Rights),
        query_supported: supports(&query, &RuleLine::Rights),
    })
}

/// A castling is held in the target also if the board has lost its king and its rook, and no game reaches it then.
#[test]
fn holds_what_the_board_lacks(rt: HostRuntime) {
    let want = Held {
        long: true,
        short: false,
        supported: true,
        query_supported: false,
    };
    assert_eq!(rt; held_without_men(), Some(want));
}
