//! What the pawns of a side cost, the least assignment of them to files, and potentials that bound it.

use board_base::{Board, Colour, Odds, Potentials, SquareSet};
use fen_text::read_four_fields;
use pawn_assign::{Costs, bound, costs, least};

const NOTHING: [i8; 8] = [0; 8];

/// Seven white pawns stand at home, and the one of a2 on b3.
const DOUBLED: &str = "8/8/8/8/8/1P6/1PPPPPPP/8 w - -";

fn board(text: &str) -> Option<Board> {
    Some(read_four_fields(text.as_bytes())?.board)
}

/// What the pawns of a side cost; None if the text can't be read, and if there are more than eight.
fn costs_in(text: &str, side: Colour, odds: Odds) -> Option<Costs> {
    costs(&board(text)?, side, odds)
}

/// What the only pawn of a side costs from each file.
fn costs_of_one(text: &str, side: Colour, odds: Odds) -> Option<[u8; 8]> {
    let table = costs_in(text, side, odds)?;
    if table.rows() != 1 {
        return None;
    }
    let mut all = [0; 8];
    for file in 0..8 {
        all[file as usize] = table.cost(0, file);
    }
    Some(all)
}

/// Boards with a white pawn on each rank of the d file, and three on the edges; and what he costs from each file.
const WHITE_PAWNS: &str = "\
8/8/8/8/8/8/8/3P4 w - -|64 64 64 64 64 64 64 64
8/8/8/8/8/8/3P4/8 w - -|64 64 64 0 64 64 64 64
8/8/8/8/8/3P4/8/8 w - -|64 64 1 0 1 64 64 64
8/8/8/8/3P4/8/8/8 w - -|64 2 1 0 1 2 64 64
8/8/8/3P4/8/8/8/8 w - -|3 2 1 0 1 2 3 64
8/8/3P4/8/8/8/8/8 w - -|3 2 1 0 1 2 3 4
8/3P4/8/8/8/8/8/8 w - -|3 2 1 0 1 2 3 4
3P4/8/8/8/8/8/8/8 w - -|3 2 1 0 1 2 3 4
8/8/8/P7/8/8/8/8 w - -|0 1 2 3 64 64 64 64
8/7P/8/8/8/8/8/8 w - -|64 64 5 4 3 2 1 0
7P/8/8/8/8/8/8/8 w - -|64 6 5 4 3 2 1 0";

/// The same for a black pawn.
const BLACK_PAWNS: &str = "\
3p4/8/8/8/8/8/8/8 w - -|64 64 64 64 64 64 64 64
8/3p4/8/8/8/8/8/8 w - -|64 64 64 0 64 64 64 64
8/8/3p4/8/8/8/8/8 w - -|64 64 1 0 1 64 64 64
8/8/8/3p4/8/8/8/8 w - -|64 2 1 0 1 2 64 64
8/8/8/8/3p4/8/8/8 w - -|3 2 1 0 1 2 3 64
8/8/8/8/8/3p4/8/8 w - -|3 2 1 0 1 2 3 4
8/8/8/8/8/8/3p4/8 w - -|3 2 1 0 1 2 3 4
8/8/8/8/8/8/8/3p4 w - -|3 2 1 0 1 2 3 4
8/8/8/8/7p/8/8/8 w - -|64 64 64 64 3 2 1 0
8/8/8/8/8/8/p7/8 w - -|0 1 2 3 4 5 64 64
8/8/8/8/8/8/8/p7 w - -|0 1 2 3 4 5 6 64";

fn numbers(cell: &str) -> Option<[u8; 8]> {
    let mut all = [0; 8];
    let mut words = cell.split(' ');
    for file in 0..8 {
        all[file] = words.next()?.parse::<u8>().ok()?;
    }
    Some(all)
}

/// What the pawn of a row costs, if it is otherwise than the row says. None if it can't be read.
fn costs_otherwise(row: &str, side: Colour) -> Option<Option<[u8; 8]>> {
    let (text, cell) = row.split_once('|')?;
    let found = costs_of_one(text, side, Odds::none())?;
    if found == numbers(cell)? {
        Some(None)
    } else {
        Some(Some(found))
    }
}

#[test]
fn tells_costs(rt: HostRuntime) {
    for row in WHITE_PAWNS.lines() {
        assert_eq!(rt; costs_otherwise(row, Colour::White), Some(None), "{row}");
    }
    for row in BLACK_PAWNS.lines() {
        assert_eq!(rt; costs_otherwise(row, Colour::Black), Some(None), "{row}");
    }
}

/// The least cost of the doubled pawns, the files that they come from, and the sum of the potentials that bound it.
fn least_of_doubled() -> Option<(u16, [u8; 8], Option<i32>)> {
    let table = costs_in(DOUBLED, Colour::White, Odds::none())?;
    let best = least(&table);
    if best.files.len() != 8 {
        return None;
    }
    let mut files = [0; 8];
    files.copy_from_slice(best.files.as_slice());
    Some((best.cost, files, bound(&table, &best.potentials)))
}

/// A white pawn stands on b3 in place of one on a2: it captured once.
#[test]
fn captures_once(rt: HostRuntime) {
    let wanted = (1, [1, 2, 3, 4, 5, 6, 7, 0], Some(1));
    assert_eq!(rt; least_of_doubled(), Some(wanted));
}

/// What the last of eight pawns costs from the first two files.
fn costs_of_eighth(odds: Odds) -> Option<[u8; 2]> {
    let table = costs_in(DOUBLED, Colour::White, odds)?;
    if table.rows() == 8 {
        Some([table.cost(7, 0), table.cost(7, 1)])
    } else {
        None
    }
}

/// What the last of eight pawns costs from the first two files if White began without the pawn of a2, and if it began with all; and
/// what Black's pawn of b3 costs if White began without that pawn.
fn costs_without_a2() -> Option<([u8; 2], [u8; 2], [u8; 8])> {
    let no_a2 = Odds::new(SquareSet::from_bits(1 << 8))?;
    let black = costs_of_one("8/8/8/8/8/1p6/8/8 w - -", Colour::Black, no_a2)?;
    Some((
        costs_of_eighth(no_a2)?,
        costs_of_eighth(Odds::none())?,
        black,
    ))
}

/// Where White began without the pawn of a2, that of b3 can't be it, and needs no capture from its own file. Black's pawns cost what
/// they cost without odds.
#[test]
fn leaves_pawns_out(rt: HostRuntime) {
    let wanted = ([64, 0], [1, 0], [1, 0, 1, 2, 3, 4, 64, 64]);
    assert_eq!(rt; costs_without_a2(), Some(wanted));
}

/// The sum of these potentials, if they bound what the doubled pawns cost; None if these or the pawns can't be read.
fn bound_of_doubled(u: &[i8], v: &[i8; 8]) -> Option<Option<i32>> {
    let table = costs_in(DOUBLED, Colour::White, Odds::none())?;
    Some(bound(&table, &Potentials::new(u, v)?))
}

/// Potentials of these pawns with their sum, if they bound the costs, whether or not they reach the least; and some that don't:
/// a pair above its cost, one pawn's missing, a file's above 0, and those of pawns and files exchanged.
#[test]
fn bounds_captures(rt: HostRuntime) {
    let rows: [(&[i8], [i8; 8], Option<i32>); 10] = [
        (
            &[1, 0, 0, 0, 0, 0, 0, 1],
            [0, -1, 0, 0, 0, 0, 0, 0],
            Some(1),
        ),
        (
            &[1, 0, 0, 0, 0, 0, 0, 0],
            [0, -1, 0, 0, 0, 0, 0, 0],
            Some(0),
        ),
        (&[0; 8], NOTHING, Some(0)),
        (&[0; 8], [-64, 0, 0, 0, 0, 0, 0, 0], Some(-64)),
        (&[1, 0, 0, 0, 0, 0, 0, 2], [0, -1, 0, 0, 0, 0, 0, 0], None),
        (&[2, 0, 0, 0, 0, 0, 0, 1], [0, -1, 0, 0, 0, 0, 0, 0], None),
        (&[1, 0, 0, 0, 0, 0, 0, 1], NOTHING, None),
        (&[1, 0, 0, 0, 0, 0, 1], [0, -1, 0, 0, 0, 0, 0, 0], None),
        (&[1, 0, 0, 0, 0, 0, 0, 1], [1, -1, 0, 0, 0, 0, 0, 0], None),
        (&[0, -1, 0, 0, 0, 0, 0, 0], [1, 0, 0, 0, 0, 0, 0, 1], None),
    ];
    for (u, v, sum) in rows {
        assert_eq!(rt; bound_of_doubled(u, &v), Some(sum));
    }
}

/// Whether the pawns of each side on a board have a table of costs: White's, then Black's.
fn are_counted(text: &str) -> Option<[bool; 2]> {
    let board = board(text)?;
    let white = costs(&board, Colour::White, Odds::none()).is_some();
    Some([white, costs(&board, Colour::Black, Odds::none()).is_some()])
}

/// Eight pawns have a table, and nine have none, for either side.
#[test]
fn counts_pawns(rt: HostRuntime) {
    let white = are_counted("8/8/8/8/8/P7/PPPPPPPP/8 w - -");
    assert_eq!(rt; white, Some([false, true]));
    let black = are_counted("8/pppppppp/p7/8/8/8/8/8 w - -");
    assert_eq!(rt; black, Some([true, false]));
    let eight = are_counted("8/pppppppp/8/8/8/8/PPPPPPPP/8 w - -");
    assert_eq!(rt; eight, Some([true, true]));
}

/// How many rows the table of no pawn has, their least cost, and what no potential and one bound.
fn costs_of_none() -> Option<(u8, u16, [Option<i32>; 2])> {
    let table = costs_in("8/8/8/8/8/P7/PPPPPPPP/8 w - -", Colour::Black, Odds::none())?;
    let nothing = Potentials::new(&[], &NOTHING)?;
    let one = Potentials::new(&[0], &NOTHING)?;
    let bounds = [bound(&table, &nothing), bound(&table, &one)];
    Some((table.rows(), least(&table).cost, bounds))
}

/// No pawn costs nothing.
#[test]
fn asks_nothing_without_pawns(rt: HostRuntime) {
    assert_eq!(rt; costs_of_none(), Some((0, 0, [Some(0), None])));
}

/// What White's pawns on a board cost at least, and what Black's do; None if the text can't be read, or a side has more than eight.
fn least_costs(text: &str) -> Option<(u16, u16)> {
    let white = costs_in(text, Colour::White, Odds::none())?;
    let black = costs_in(text, Colour::Black, Odds::none())?;
    Some((least(&white).cost, least(&black).cost))
}

/// Board, least cost of its white pawns, least cost of its black pawns: eight on one file, and boards drawn at random. The costs were
/// found by a plain program that tries each way of giving the pawns different files.
#[test]
fn finds_least_costs(rt: HostRuntime) {
    let rows = [
        ("P7/P7/P7/P7/P7/P7/P7/P7 w - -", 85, 0),
        ("3P4/3P4/3P4/3P4/3P4/3P4/3P4/3P4 w - -", 76, 0),
        ("p7/p7/p7/p7/p7/p7/p7/p7 w - -", 0, 85),
        ("6p1/6p1/6p1/6p1/6p1/6p1/6p1/6p1 w - -", 0, 80),
        ("8/1pp5/P1Ppp3/1pP4p/1P4P1/2P1Pp2/p2P4/8 w - -", 8, 5),
        ("8/7P/P1pPPPp1/3p4/6P1/1ppPp1p1/4P2p/8 w - -", 4, 3),
        ("8/p7/3P2P1/4ppPP/P2p4/1p2ppPP/2P2p2/8 w - -", 9, 5),
        ("2p3p1/p7/p3P2P/1P6/5Pp1/1p3P2/1P2P3/Pp2p3 w - -", 67, 132),
        ("8/1P1Pp2p/2PP4/3PP2p/2p5/2p1p3/2P1p2P/8 w - -", 7, 4),
        ("8/1pP1P3/1P1p4/2pPp2P/5p1p/1p1P1P2/5p2/8 w - -", 3, 2),
        ("8/6Pp/p3P1P1/1pP3p1/1P4P1/3pP3/1p5P/8 w - -", 8, 1),
        ("8/p7/1p1P4/6pP/2pp4/p2P4/7P/1PP5 w - -", 130, 4),
        ("8/P3p3/P3p3/8/p2p1pP1/p3p2P/2pP4/8 w - -", 1, 6),
        ("8/7p/P1P5/1P1P1P2/P7/1p2pp1p/P6P/8 w - -", 10, 1),
        ("8/8/6p1/5Pp1/2p5/5PpP/3P4/8 w - -", 1, 2),
        ("6p1/8/p1Pp2p1/8/1p5P/7p/8/3P1p2 w - -", 64, 64),
        ("8/4P3/1P3P2/P6P/8/p4Pp1/3P1p2/8 w - -", 1, 0),
        ("8/1P6/2P1P1Pp/P1P5/p1p1P3/pp1pP3/1p1p4/8 w - -", 5, 11),
        ("8/p1pp1P2/2P2P2/6p1/P3p1P1/Pp3P2/1p2p2P/8 w - -", 4, 7),
        ("3p4/5p2/2P1p3/4PPP1/p7/2pp2pP/P5p1/3P1P2 w - -", 128, 65),
        ("8/3P3P/3pp3/1P2Pp2/P1p3pp/3Pp2p/1P1P4/8 w - -", 6, 10),
        ("8/3P2p1/3p4/p1P3P1/3p1p2/P1p5/P2ppPPP/8 w - -", 3, 6),
        ("8/3p4/1P1P1P1P/1p3P2/1P4P1/7P/8/8 w - -", 7, 0),
        ("pP6/2p5/4p3/7p/3p4/1p6/1p1p4/8 w - -", 0, 67),
        ("8/2Pp1pP1/P2p4/P4p2/3p4/p2p4/2P4P/8 w - -", 2, 5),
        ("8/1pP1P1p1/2P5/p1P1P3/P7/P7/2pp2pp/8 w - -", 7, 1),
        ("8/1P2P1pP/4p2p/2ppP3/2pP1P1P/2P5/2p2p2/8 w - -", 5, 3),
        ("P2P4/7p/6pP/1P3Pp1/6p1/1pPP1p2/p1P5/5p2 w - -", 5, 8),
    ];
    for (text, white, black) in rows {
        assert_eq!(rt; least_costs(text), Some((white, black)), "{text}");
    }
}

/// Whether potentials of the ends of the range are kept as they were given.
fn keeps_ends() -> Option<bool> {
    let files = [64, -64, 0, 0, 0, 0, 0, 64];
    let ends = Potentials::new(&[-64, 64], &files)?;
    Some(ends.u() == [-64, 64].as_slice() && *ends.v() == files)
}

/// Whether there are potentials of these pawns, and of eight files of which all but one of this place have 0.
fn are_potentials(pawns: &[i8], place: u8, potential: i8) -> bool {
    let mut files = NOTHING;
    if place < 8 {
        files[place as usize] = potential;
    }
    Potentials::new(pawns, &files).is_some()
}

/// Potentials lie from -64 to 64, and there are at most eight of pawns.
#[test]
fn limits_potentials(rt: HostRuntime) {
    assert_eq!(rt; keeps_ends(), Some(true));
    let rows: [(&[i8], u8, i8, bool); 10] = [
        (&[], 0, 0, true),
        (&[0; 8], 0, 0, true),
        (&[0; 9], 0, 0, false),
        (&[65], 0, 0, false),
        (&[-65], 0, 0, false),
        (&[0, 0, 0, 0, 0, 0, 0, 65], 0, 0, false),
        (&[127], 0, 0, false),
        (&[], 0, 65, false),
        (&[], 7, -65, false),
        (&[], 3, -128, false),
    ];
    for (pawns, place, potential, fits) in rows {
        assert_eq!(rt; are_potentials(pawns, place, potential), fits);
    }
}
