//! Ledgers of published problems: homes, fates and counts that their solutions tell. A row of a table has cells with `|` between two, of which
//! the last says what it shows.

use board_base::{Board, Square, SquareSet, array_of, is_of, read_square};
use cage_rules::greatest_as_array;
use capture_prices::Prices;
use fen_text::read_four_fields;
use ledger_rule::account_of;
use ledger_search::{Fates, Ledger, Range, is_contradictory, ledger_of};
use query_base::Query;

/// FEN, a square, the homes that are left for the man there, and who it is.
const HOMES: &str = "\
1KRqb3/p2krpp1/3pp3/Pp6/BrPPP3/1p1P4/2p1P3/Q7 w - -|e4|f2|Dawson 1940: a pawn who captured once
1KRqb3/p2krpp1/3pp3/Pp6/BrPPP3/1p1P4/2p1P3/Q7 w - -|c2|h7|a pawn who captured five times
1KRqb3/p2krpp1/3pp3/Pp6/BrPPP3/1p1P4/2p1P3/Q7 w - -|b3|b7 c7|one of two pawns
1KRqb3/p2krpp1/3pp3/Pp6/BrPPP3/1p1P4/2p1P3/Q7 w - -|a4|f1|a bishop of the array
4bQ1q/p2prB1k/p3pb1p/6pP/6pr/PP5n/pNPPP2P/K1B5 w - -|a2|c7|Dawson, Retrograde Analysis 93
4bQ1q/p2prB1k/p3pb1p/6pP/6pr/PP5n/pNPPP2P/K1B5 w - -|a6|b7|a pawn behind another
4bQ1q/p2prB1k/p3pb1p/6pP/6pr/PP5n/pNPPP2P/K1B5 w - -|g4|f7 g7|one of two on a file
4bQ1q/p2prB1k/p3pb1p/6pP/6pr/PP5n/pNPPP2P/K1B5 w - -|h5|g2|a white pawn who captured
B1Q5/4p1p1/7p/1P3r1q/1P6/P5K1/P2P4/7k b - -|b5|e2|Loyd 1891: a pawn who captured three times
B1Q5/4p1p1/7p/1P3r1q/1P6/P5K1/P2P4/7k b - -|a3|b2|a pawn before another
kbN5/n1p5/B1N5/PpK5/8/8/8/8 w - -|b5|a7 b7 d7|Benko 1996
8/pbp5/1b6/8/PPPPPPP1/pprprpp1/2N1PR1n/R3K2k w Q -|f2|h1|L'Alfiere 1922: the rook of h1, if White may castle
8/pbp5/1b6/8/PPPPPPP1/pprprpp1/2N1PR1n/R3K2k w - -|f2|a1 h1|either rook otherwise
r3k2r/2pppp2/1p4p1/5N2/1pP2Q2/2pPPP2/1b2KPP1/8 w - -|c3|g7|Dawson, Retrograde Analysis 349
r3k2r/2pppp2/1p4p1/5N2/1pP2Q2/2pPPP2/1b2KPP1/8 w - -|f3|e2|one of White's pawns
rnbqkbnr/pppppppp/8/8/8/8/PPPPPPPP/RNBQKBNR w KQkq -|b1|b1 g1|a knight of the array";

/// FEN, the home of a man, and what may have become of him: he stands or was promoted (`s`, `S`), was taken by none of the pawns, as a pawn
/// or an officer of the array or after a promotion (`t`, `T`), or by a pawn (`p`, `P`).
const FATES: &str = "\
1KRqb3/p2krpp1/3pp3/Pp6/BrPPP3/1p1P4/2p1P3/Q7 w - -|g2|p|Dawson 1940: taken as a pawn
1KRqb3/p2krpp1/3pp3/Pp6/BrPPP3/1p1P4/2p1P3/Q7 w - -|b1|p|a knight whom a pawn took
1KRqb3/p2krpp1/3pp3/Pp6/BrPPP3/1p1P4/2p1P3/Q7 w - -|a1|s p|one of two rooks
r3k2r/2pppp2/1p4p1/5N2/1pP2Q2/2pPPP2/1b2KPP1/8 w k -|h2|t p|Dawson, Retrograde Analysis 349: taken as a pawn, if Black may castle
B1Q5/4p1p1/7p/1P3r1q/1P6/P5K1/P2P4/7k b - -|f8|t|Loyd 1891: taken at home, by no pawn";

/// FEN, at least and at most how many captures White's pawns made, the same of Black's, and what it is.
const COUNTS: &str = "\
1KRqb3/p2krpp1/3pp3/Pp6/BrPPP3/1p1P4/2p1P3/Q7 w - -|3|3|6|6|Dawson 1940: all that are lacking
qrrb2N1/pnppR2B/2ppb2B/3R1pPp/1P2kPpQ/PK2P3/2P3P1/8 w - -|1|1|2|2|Dawson 1913
4bQ1q/p2prB1k/p3pb1p/6pP/6pr/PP5n/pNPPP2P/K1B5 w - -|1|1|4|4|Dawson, Retrograde Analysis 93
8/pbp5/1b6/8/PPPPPPP1/pprprpp1/2N1PR1n/R3K2k w - -|3|3|4|4|L'Alfiere 1922
kbN5/n1p5/B1N5/PpK5/8/8/8/8 w - -|0|16|0|16|nothing is known
rnbqkbnr/pppppppp/8/8/8/8/PPPPPPPP/RNBQKBNR w KQkq -|0|0|0|0|the array";

/// FEN, whether the ledger contradicts itself, and what it is.
const CONTRADICTORY: &str = "\
b5rn/1kPBpp2/pP4p1/PR1Pp3/PP2P3/8/2NP4/R3K3 w - -|yes|Loyd 1877: fourteen captures of seven men
1KRqb3/p2krpp1/3pp3/Pp6/BrPPP3/1p1P4/2p1P3/Q7 w - -|no|Dawson 1940
rnbqkbnr/pppppppp/8/8/8/8/PPPPPPPP/RNBQKBNR w KQkq -|no|the array";

pub(crate) fn query(cell: Option<&str>) -> Option<Query> {
    read_four_fields(cell?.as_bytes())
}

fn square(cell: Option<&str>) -> Option<Square> {
    match cell?.as_bytes() {
        [file, rank] => read_square(*file, *rank),
        _ => None,
    }
}

/// The squares of a cell, with blanks between two.
pub(crate) fn squares(cell: Option<&str>) -> Option<SquareSet> {
    let mut set = SquareSet::from_bits(0);
    for word in cell?.split(' ') {
        set = set.with(square(Some(word))?);
    }
    Some(set)
}

/// The homes of the side of the man on a square that aren't ruled out for him.
fn homes_left(board: &Board, first: &Board, ledger: &Ledger, s: Square) -> Option<SquareSet> {
    let man = board.at(s)?;
    let mut left = SquareSet::from_bits(0);
    for i in 0..64 {
        let h = Square::known(i);
        if is_of(man.colour, first.at(h)) && !ledger.homes[s.index() as usize].has(h) {
            left = left.with(h);
        }
    }
    Some(left)
}

/// Whether exactly these homes are left.
fn has_homes(row: &str) -> Option<bool> {
    let mut cells = row.split('|');
    let query = query(cells.next())?;
    let s = square(cells.next())?;
    let homes = squares(cells.next())?;
    let left = homes_left(&query.board, &array_of(query.odds), &ledger_of(&query), s)?;
    Some(left == homes)
}

/// Whether a fate is left if and only if its letter is among these.
fn is_told(letters: &str, letter: char, ruled_out: SquareSet, h: Square) -> bool {
    let told = letters.contains(letter);
    told != ruled_out.has(h)
}

fn has_fates(row: &str) -> Option<bool> {
    let mut cells = row.split('|');
    let query = query(cells.next())?;
    let h = square(cells.next())?;
    let letters = cells.next()?;
    let fates: Fates = ledger_of(&query).fates;
    Some(
        is_told(letters, 's', fates.stands, h)
            && is_told(letters, 'S', fates.stands_promoted, h)
            && is_told(letters, 't', fates.taken, h)
            && is_told(letters, 'T', fates.taken_promoted, h)
            && is_told(letters, 'p', fates.struck, h)
            && is_told(letters, 'P', fates.struck_promoted, h),
    )
}

fn range(least: Option<&str>, most: Option<&str>) -> Option<Range> {
    Some(Range {
        least: least?.parse::<u8>().ok()?,
        most: most?.parse::<u8>().ok()?,
    })
}

fn has_counts(row: &str) -> Option<bool> {
    let mut cells = row.split('|');
    let query = query(cells.next())?;
    let white = range(cells.next(), cells.next())?;
    let black = range(cells.next(), cells.next())?;
    let ledger = ledger_of(&query);
    Some(ledger.white.all == white && ledger.black.all == black)
}

fn has_answer(row: &str) -> Option<bool> {
    let mut cells = row.split('|');
    let query = query(cells.next())?;
    let told = cells.next()? == "yes";
    Some(is_contradictory(&query, &ledger_of(&query)) == told)
}

/// Whether what each side's men cost is kept, so that suppositions need no assignments of their own.
fn has_tables(row: &str) -> Option<bool> {
    let mut cells = row.split('|');
    let query = query(cells.next())?;
    let prices = Prices::new(&[24; 16], &[24; 16], &[])?;
    let account = account_of(&query, greatest_as_array(&query), &prices)?;
    Some(account.white.table.is_some() && account.black.table.is_some())
}

#[test]
fn keeps_tables(rt: HostRuntime) {
    for row in COUNTS.lines() {
        assert!(rt; has_tables(row) == Some(true), "{row}");
    }
}

#[test]
fn tells_homes(rt: HostRuntime) {
    for row in HOMES.lines() {
        assert!(rt; has_homes(row) == Some(true), "{row}");
    }
}

#[test]
fn tells_fates(rt: HostRuntime) {
    for row in FATES.lines() {
        assert!(rt; has_fates(row) == Some(true), "{row}");
    }
}

#[test]
fn tells_counts(rt: HostRuntime) {
    for row in COUNTS.lines() {
        assert!(rt; has_counts(row) == Some(true), "{row}");
    }
}

#[test]
fn tells_contradictions(rt: HostRuntime) {
    for row in CONTRADICTORY.lines() {
        assert!(rt; has_answer(row) == Some(true), "{row}");
    }
}
