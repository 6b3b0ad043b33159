//! Frozen sets and regions on written boards. A row of a table has cells with `|` between two, of which the last says what it shows; a set is
//! written as in a certificate.

use board_base::{Odds, Square, SquareSet, read_square};
use cage_rules::{
    as_array, greatest_as_array, greatest_frozen, is_dead, is_frozen, is_officer_home, is_shielded,
    region,
};
use fen_text::{read_four_fields, read_set};
use query_base::Query;

fn query(cell: Option<&str>) -> Option<Query> {
    read_four_fields(cell?.as_bytes())
}

fn set(cell: Option<&str>) -> Option<SquareSet> {
    read_set(cell?.as_bytes())
}

fn square(cell: Option<&str>) -> Option<Square> {
    match cell?.as_bytes() {
        [file, rank] => read_square(*file, *rank),
        _ => None,
    }
}

/// Whether a cell is the first of two words; None if it is neither.
fn is_first(cell: Option<&str>, words: (&str, &str)) -> Option<bool> {
    let word = cell?;
    if word == words.0 {
        Some(true)
    } else if word == words.1 {
        Some(false)
    } else {
        None
    }
}

/// Set, FEN, whether the set is frozen, and whether it is as in the array.
const FROZEN_SETS: &str = "\
0000000000004080|4k3/8/8/8/8/8/6P1/4K2B w - -|frozen|other|the bishop of h1 behind g2
0000000000000080|4k3/8/8/8/8/8/6P1/4K2B w - -|free|other|the bishop without g2 in the set
0000000000400080|4k3/8/8/8/8/6P1/8/4K2B w - -|free|other|the bishop of h1 with the pawn on g3
0000000000000a04|4k3/8/8/8/8/8/1P1P4/2B1K3 w - -|frozen|array|the bishop of c1 behind b2 and d2
040a000000000000|2B1k3/1p1p4/8/8/8/8/8/4K3 w - -|free|other|the bishop of c8 behind black pawns
000a000000000000|2B1k3/1p1p4/8/8/8/8/8/4K3 w - -|frozen|array|the pawns beside c8 alone
040e000000000000|2B1k3/1ppp4/8/8/8/8/8/4K3 w - -|frozen|other|the bishop of c8 with c7 closed
0000000000020701|4k3/8/8/8/8/PPP5/PPPP4/NR2K3 w - -|frozen|other|a knight with each square of his in the set
0000000000000701|4k3/8/8/8/8/2P5/PPPP4/NR2K3 w - -|free|other|a knight with a square of his open
0000000000000303|4k3/8/8/8/8/8/PP6/rN2K3 w - -|free|other|a black rook on a1
0000000000010300|4k3/8/8/8/8/P7/PP6/4K3 w - -|frozen|other|a white pawn on a3
0000000000010100|4k3/8/8/8/8/P7/P7/4K3 w - -|free|other|a white pawn on a3 with b2 open
0000000008143e00|4k3/8/8/8/3P4/2P1P3/1PPPPP2/4K3 w - -|free|other|a white pawn on d4 over d3
001c080000000000|4k3/1ppppp2/3p4/8/8/8/8/4K3 w - -|frozen|other|black pawns on d6 and their squares
00ff00000000ff00|4k3/pppppppp/8/8/8/8/PPPPPPPP/4K3 w - -|frozen|array|pawns at home
000000000000e0c0|4k3/8/8/8/8/8/5PPP/6BK w - -|frozen|other|the king of h1 behind his men
000000000000e060|4k3/8/8/8/8/8/5PPP/5RK1 w - -|free|other|a castled king
0c07000000000000|2kr4/ppp5/8/8/8/8/8/4K3 w - -|free|other|a king castled long
0000000000000011|4k3/8/8/8/8/8/8/R3K3 w Q -|frozen|array|a right held to the left
0000000000000090|4k3/8/8/8/8/8/8/R3K2R w Q -|free|array|the other rook's home
0000000000000011|4k3/8/8/8/8/8/8/R3K3 w - -|free|array|no right
9100000000000000|r3k2r/8/8/8/8/8/8/4K3 w kq -|frozen|array|black rights
0000000000001e1c|4k3/8/8/8/8/8/1PPPP3/2BQK2R w K -|frozen|array|a queen caged by a king whose right is held
0000000000001e1c|4k3/8/8/8/8/8/1PPPP3/2BQK2R w - -|free|array|the same without the right
0000000000000000|4k3/8/8/8/8/8/8/4K3 w - -|frozen|array|no square
0000000000000001|4k3/8/8/8/8/8/8/4K3 w - -|free|other|an empty square
000000000000ffff|4k3/8/8/8/8/8/PPPPPPPP/RNBQKBNR w - -|free|array|White's array without rights";

/// What is answered otherwise than the row says: whether the set is frozen, and whether it is as in the array. None if it can't be read.
fn frozen_otherwise(row: &str) -> Option<Option<(bool, bool)>> {
    let mut cells = row.split('|');
    let set = set(cells.next())?;
    let query = query(cells.next())?;
    let frozen = is_first(cells.next(), ("frozen", "free"))?;
    let array = is_first(cells.next(), ("array", "other"))?;
    let frozen_now = is_frozen(&query, set);
    let array_now = as_array(&query.board, set, Odds::none());
    if frozen_now == frozen && array_now == array {
        Some(None)
    } else {
        Some(Some((frozen_now, array_now)))
    }
}

#[test]
fn tells_frozen_sets(rt: HostRuntime) {
    for row in FROZEN_SETS.lines() {
        assert_eq!(rt; frozen_otherwise(row), Some(None), "{row}");
    }
}

/// FEN, the greatest frozen set, and the greatest that is as in the array.
const GREATEST_SETS: &str = "\
4k3/8/8/8/8/8/6P1/4K2B w - -|0000000000004080|0000000000004000|bishop h1 behind g2
4k3/8/8/8/8/8/8/4K3 w - -|0000000000000000|0000000000000000|kings alone
4k3/8/8/8/8/8/1P1P4/2B1K3 w - -|0000000000000a04|0000000000000a04|bishop c1 behind b2 and d2
4k3/8/8/8/8/8/PPPPPPPP/RNBQKBNR w - -|000000000000ff3c|000000000000ff3c|White's array without rights
rnbqkbnr/pppppppp/8/8/8/8/PPPPPPPP/RNBQKBNR w KQkq -|bdff00000000ffbd|bdff00000000ffbd|the array
4k3/8/8/8/8/PPP5/PPPP4/2B1K3 w - -|0000000000070f04|0000000000000f04|pawns before pawns
4k3/8/8/8/8/8/1PPPP3/2BQK2R w K -|0000000000001e9c|0000000000001e9c|a queen caged by a king whose right is held
4k3/8/8/8/8/8/1PPPP3/2BQK2R w - -|0000000000001e04|0000000000001e04|the same without the right
1nbqk2r/1pppp3/8/8/8/8/8/4K3 b k -|9c1e000000000000|9c1e000000000000|the same for Black
4k3/8/8/8/8/8/5PPP/6BK w - -|000000000000e0c0|000000000000e000|the king of h1 behind his men
4k3/8/8/8/8/8/5PPP/5RK1 w - -|000000000000e000|000000000000e000|a castled king
2kr4/ppp5/8/8/8/8/8/4K3 w - -|0007000000000000|0007000000000000|a king castled long
4k3/8/8/8/3P4/2P5/1P6/4K3 w - -|0000000000000200|0000000000000200|pawns b2, c3 and d4";

/// The sets that are found, if they are others than the row says. None if it can't be read.
fn greatest_otherwise(row: &str) -> Option<Option<(u64, u64)>> {
    let mut cells = row.split('|');
    let query = query(cells.next())?;
    let frozen = set(cells.next())?.bits();
    let array = set(cells.next())?.bits();
    let found = greatest_frozen(&query).bits();
    let found_as_array = greatest_as_array(&query).bits();
    if found == frozen && found_as_array == array {
        Some(None)
    } else {
        Some(Some((found, found_as_array)))
    }
}

#[test]
fn finds_greatest(rt: HostRuntime) {
    for row in GREATEST_SETS.lines() {
        assert_eq!(rt; greatest_otherwise(row), Some(None), "{row}");
    }
}

/// The region of a home; None if no knight, bishop, rook or queen begins there.
fn region_of(frozen: SquareSet, home: Square) -> Option<u64> {
    if is_officer_home(home) {
        Some(region(frozen, home).bits())
    } else {
        None
    }
}

/// Set, home, region.
const REGIONS: &str = "\
0000000000000a00|c1|0000000000000004|c1 behind b2 and d2
0050000000000000|f8|2000000000000000|f8 behind e7 and g7
0000000000000000|a1|ffffffffffffffff|a1 on an open board
0000000000000000|b1|ffffffffffffffff|b1 on an open board
0000000000000000|c1|aa55aa55aa55aa55|c1 on an open board
0000000000000000|f1|55aa55aa55aa55aa|f1 on an open board
0000000000000000|d1|ffffffffffffffff|d1 on an open board
000000000000ff00|a1|00000000000000ff|a1 behind eight pawns
00ff000000000000|h8|ff00000000000000|h8 behind eight pawns
000000000000ff02|a1|0000000000000001|a1 beside b1
0000000000020504|a1|0000000000000203|a1 round its own pawns
0000000000000300|a1|fffffffffffffcff|a1 past the pawn of a2
0000000000050800|b1|0000000000000002|b1 with no square
0010800000000000|g8|ffef7fffffffffff|g8 through f6 alone
000000000000ff00|b1|ffffffffffff00ff|b1 over the pawns
0000000000000003|a1|fffffffffffffffd|the home in the set";

/// The region that is found, if it is another than the row says. None if it can't be read, or no officer begins on its square.
fn region_otherwise(row: &str) -> Option<Option<u64>> {
    let mut cells = row.split('|');
    let frozen = set(cells.next())?;
    let home = square(cells.next())?;
    let squares = set(cells.next())?.bits();
    let found = region_of(frozen, home)?;
    if found == squares {
        Some(None)
    } else {
        Some(Some(found))
    }
}

#[test]
fn finds_regions(rt: HostRuntime) {
    for row in REGIONS.lines() {
        assert_eq!(rt; region_otherwise(row), Some(None), "{row}");
    }
}

/// Whether a region is asked for from this square, of a set without squares. None if it can't be read.
fn has_region(name: &str) -> Option<bool> {
    let home = square(Some(name))?;
    Some(region_of(SquareSet::from_bits(0), home).is_some())
}

#[test]
fn begins_regions_where_officers_begin(rt: HostRuntime) {
    for name in ["e1", "e8", "a2", "d4", "a7"] {
        assert_eq!(rt; has_region(name), Some(false));
    }
}

/// Whether a home is dead, and whether it is shielded; None if no knight, bishop, rook or queen begins there.
fn fate(query: &Query, frozen: SquareSet, home: Square) -> Option<(bool, bool)> {
    if is_officer_home(home) {
        let dead = is_dead(&query.board, frozen, home);
        Some((dead, is_shielded(frozen, home)))
    } else {
        None
    }
}

/// FEN, set, home, whether the home is dead, and whether it is shielded.
const HOMES: &str = "\
4k3/8/8/8/8/8/1P1P4/4K3 w - -|0000000000000a00|c1|dead|shielded|bishop c1 gone
4k3/8/8/8/8/8/1P1P4/2B1K3 w - -|0000000000000a00|c1|alive|shielded|bishop c1 at home
4k3/8/8/8/8/8/1P1P4/2N1K3 w - -|0000000000000a00|c1|dead|shielded|a knight on c1
4k3/8/8/8/8/8/1P1P4/2b1K3 w - -|0000000000000a00|c1|dead|shielded|a black bishop on c1
4k3/8/8/8/8/8/1P6/4K3 w - -|0000000000000200|c1|dead|open|d2 open, no bishop
4k3/8/8/8/8/8/1P6/4KB2 w - -|0000000000000200|c1|dead|open|d2 open, a light bishop
3B4/8/8/8/8/8/1P6/4K2k w - -|0000000000000200|c1|alive|open|d2 open, a dark bishop far away
4k3/4p1p1/8/8/8/8/8/4K3 w - -|0050000000000000|f8|dead|shielded|bishop f8 gone
4kb2/4p1p1/8/8/8/8/8/4K3 w - -|0050000000000000|f8|alive|shielded|bishop f8 at home
4k3/1p1p4/8/8/8/8/8/4K3 w - -|000a000000000000|c8|dead|shielded|bishop c8 gone
4k3/8/8/8/8/P1P5/3P4/4K3 w - -|0000000000050800|b1|dead|open|knight b1 gone, struck from a2
4k3/8/8/8/8/P1P5/P1PP4/4K3 w - -|0000000000050d00|b1|dead|shielded|knight b1 gone, struck from nowhere
4k3/8/8/8/8/P1P5/P1PP4/1N2K3 w - -|0000000000050d00|b1|alive|shielded|knight b1 at home
4k3/4pp1p/5p1p/8/8/8/8/4K3 w - -|00b0a00000000000|g8|dead|shielded|knight g8 gone
4k3/4p3/7p/8/8/n7/8/4K3 w - -|0010800000000000|g8|alive|open|knight g8 elsewhere
4k3/8/8/8/8/8/P7/1N2K3 w - -|0000000000000102|a1|dead|open|rook a1 gone, struck from b2
4k3/8/8/8/8/8/PP6/1N2K3 w - -|0000000000000302|a1|dead|shielded|rook a1 gone
4k1n1/6pp/8/8/8/8/8/4K3 w - -|40c0000000000000|h8|dead|shielded|rook h8 gone
4k1nr/6pp/8/8/8/8/8/4K3 w - -|40c0000000000000|h8|alive|shielded|rook h8 at home
4k3/8/8/8/8/8/PPPPPPPP/3RK3 w - -|000000000000ff00|a1|alive|shielded|another rook in the region of a1
4k3/8/3R4/8/8/8/PPPPPPPP/4K3 w - -|000000000000ff00|a1|dead|shielded|a rook above the pawns
4k3/8/8/8/8/8/8/4K3 w - -|0402020202020202|a1|dead|shielded|a rook's region shielded by rank 8
4k3/8/8/8/8/8/8/4K3 w - -|0404020202020202|a1|dead|open|the same with b7 open
4k3/8/8/8/8/8/8/4K3 w - -|0202020202020204|a8|dead|shielded|a black rook's region shielded by rank 1
4k3/8/8/8/8/8/2PPP3/2B1K3 w - -|0000000000001c14|d1|dead|shielded|queen d1 gone
4k3/8/8/8/8/8/2PPP3/2BQK3 w - -|0000000000001c14|d1|alive|shielded|queen d1 at home
2b1k3/2ppp3/8/8/8/8/8/4K3 w - -|141c000000000000|d8|dead|shielded|queen d8 gone
2b1k3/2p1p3/8/8/8/8/8/q3K3 w - -|1414000000000000|d8|alive|open|queen d8 promoted elsewhere";

/// What is answered otherwise than the row says: whether the home is dead, and whether it is shielded. None if it can't be read.
fn fate_otherwise(row: &str) -> Option<Option<(bool, bool)>> {
    let mut cells = row.split('|');
    let query = query(cells.next())?;
    let frozen = set(cells.next())?;
    let home = square(cells.next())?;
    let dead = is_first(cells.next(), ("dead", "alive"))?;
    let shielded = is_first(cells.next(), ("shielded", "open"))?;
    let (dead_now, shielded_now) = fate(&query, frozen, home)?;
    if dead_now == dead && shielded_now == shielded {
        Some(None)
    } else {
        Some(Some((dead_now, shielded_now)))
    }
}

#[test]
fn tells_dead(rt: HostRuntime) {
    for row in HOMES.lines() {
        assert_eq!(rt; fate_otherwise(row), Some(None), "{row}");
    }
}
