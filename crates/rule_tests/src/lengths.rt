//! What men cost, the best potentials of a side's men, and the lengths that they show, on written boards.

use board_base::{Colour, Kind, Man, Odds, Square, SquareSet};
use fen_text::read_four_fields;
use length_bound::{ManPotentials, best, length_of, move_cost, steps};

const NOTHING: [i8; 16] = [0; 16];

/// How long every game is at least, in half-moves, by the best potentials of a side; None if it has more than sixteen men.
fn greatest_length(text: &str, side: Colour) -> Option<u16> {
    let query = read_four_fields(text.as_bytes())?;
    let p = best(&query, side)?;
    length_of(&query, side, &p)
}

/// Text, and how long every game is at least, in half-moves, as White's men show.
#[test]
fn tells_lengths_by_white(rt: HostRuntime) {
    let rows: [(&str, u16); 10] = [
        ("rnbqk2r/ppppppbp/5np1/8/8/5NP1/PPPPPPBP/RNBQ1RK1 b kq -", 7),
        (
            "rnbqkb1r/pppppppp/5n2/8/4P3/8/PPPP1PPP/RNBQKBNR w KQkq -",
            2,
        ),
        ("rnbqkbnr/pppppppp/8/8/8/8/PPPPPPPP/RNBQKBNR w KQkq -", 0),
        ("rnbqkbnr/pppppppp/8/8/8/8/PPPPPPPP/RNBQKBNR b KQkq -", 1),
        ("rnbqkbnr/pppppppp/8/8/8/4P3/PPPP1PPP/RNBQKBNR b KQkq -", 1),
        ("rnbqkbnr/pppppppp/8/4P3/8/8/PPPP1PPP/RNBQKBNR b KQkq -", 3),
        ("rnbqkbnr/pppppppp/8/8/8/8/PPPPPPP1/RNBQKBQR w KQkq -", 12),
        ("4k3/8/8/8/8/8/8/3QK3 w - -", 0),
        ("4k3/8/8/8/8/8/3K4/3QQ3 w - -", 10),
        ("rnbqkbnr/pppppppp/8/8/8/8/PPPPPPPP/RNBQKBNN w Q -", 128),
    ];
    for (text, length) in rows {
        assert_eq!(rt;
            greatest_length(text, Colour::White),
            Some(length),
            "{text}"
        );
    }
}

/// Text, and how long every game is at least, in half-moves, as Black's men show.
#[test]
fn tells_lengths_by_black(rt: HostRuntime) {
    let rows: [(&str, u16); 5] = [
        ("rnbqk2r/ppppppbp/5np1/8/8/5NP1/PPPPPPBP/RNBQ1RK1 b kq -", 7),
        (
            "rnbqkb1r/pppppppp/5n2/8/4P3/8/PPPP1PPP/RNBQKBNR w KQkq -",
            2,
        ),
        ("rnbqkbnr/pppppppp/8/8/8/8/PPPPPPPP/RNBQKBNR b KQkq -", 1),
        ("rnbqkbnr/1ppppppp/8/8/p7/8/PPPPPPPP/RNBQKBNR w KQkq -", 4),
        ("rnbq1bnr/pppp1ppp/8/4k3/8/8/PPPPPPPP/RNBQKBNR w KQ -", 2),
    ];
    for (text, length) in rows {
        assert_eq!(rt;
            greatest_length(text, Colour::Black),
            Some(length),
            "{text}"
        );
    }
}

/// Potentials of all sixteen homes, of which the first and the last are given and the others 0.
fn of_ends(first: i8, last: i8) -> [i8; 16] {
    let mut homes = NOTHING;
    homes[0] = first;
    homes[15] = last;
    homes
}

/// Whether potentials of the ends of the range are kept as they were given.
fn keeps_ends() -> Option<bool> {
    let homes = of_ends(-64, 64);
    let ends = ManPotentials::new(&[-64, 64], &homes)?;
    Some(ends.u() == [-64, 64].as_slice() && *ends.v() == homes)
}

/// Potentials lie from -64 to 64, and there are at most sixteen of men.
#[test]
fn limits_potentials(rt: HostRuntime) {
    assert_eq!(rt; keeps_ends(), Some(true));
    let rows: [(&[i8], [i8; 16], bool); 6] = [
        (&[], NOTHING, true),
        (&[0; 16], NOTHING, true),
        (&[0; 17], NOTHING, false),
        (&[65], NOTHING, false),
        (&[0, -65], NOTHING, false),
        (&[], of_ends(-64, -65), false),
    ];
    for (u, v, fits) in rows {
        assert_eq!(rt; ManPotentials::new(u, &v).is_some(), fits);
    }
}

/// The length that White's potentials show of a position with the pawn of e2 and both kings. None if there are no such potentials.
fn shown_length(u: &[i8], first: i8) -> Option<Option<u16>> {
    let query = read_four_fields(b"4k3/8/8/8/8/8/4P3/4K3 w - -")?;
    let p = ManPotentials::new(u, &of_ends(first, 0))?;
    Some(length_of(&query, Colour::White, &p))
}

/// Potentials above what the men need, too few of them, and a potential of a home above 0 show nothing.
#[test]
fn refuses_potentials(rt: HostRuntime) {
    let rows: [(&[i8], i8, Option<u16>); 4] = [
        (&[0, 0], 0, Some(0)),
        (&[0], 0, None),
        (&[0, 1], 0, None),
        (&[0, 0], 1, None),
    ];
    for (u, first, length) in rows {
        assert_eq!(rt; shown_length(u, first), Some(length));
    }
}

/// Whether a side has best potentials; None if the text can't be read.
fn has_best(text: &[u8], side: Colour) -> Option<bool> {
    let query = read_four_fields(text)?;
    Some(best(&query, side).is_some())
}

/// A side of seventeen men.
#[test]
fn refuses_seventeen(rt: HostRuntime) {
    let text = b"rnbqkbnr/pppppppp/8/8/8/P7/PPPPPPPP/RNBQKBNR w KQkq -";
    assert_eq!(rt; has_best(text, Colour::White), Some(false));
    assert_eq!(rt; has_best(text, Colour::Black), Some(true));
}

/// Whether a man of this kind, who is no pawn, attacks over so many files and ranks on an empty board.
fn attacks_over(kind: Kind, files: u8, ranks: u8) -> bool {
    match kind {
        Kind::Pawn => false,
        Kind::Knight => (files == 1 && ranks == 2) || (files == 2 && ranks == 1),
        Kind::Bishop => files == ranks && files > 0,
        Kind::Rook => (files == 0) != (ranks == 0),
        Kind::Queen => (files == ranks || files == 0 || ranks == 0) && (files > 0 || ranks > 0),
        Kind::King => files < 2 && ranks < 2 && (files > 0 || ranks > 0),
    }
}

/// The steps from this square to each, breadth first: who was reached after so many steps goes one further; 64 if none is reached.
fn breadth_first(kind: Kind, from: usize) -> [u8; 64] {
    let mut steps = [64; 64];
    if from < 64 {
        steps[from] = 0;
    }
    for round in 0..8 {
        for s in 0..64 {
            for t in 0..64 {
                let files = (s as u8 % 8).abs_diff(t as u8 % 8);
                let ranks = (s as u8 / 8).abs_diff(t as u8 / 8);
                if steps[s] == round && steps[t] == 64 && attacks_over(kind, files, ranks) {
                    steps[t] = round + 1;
                }
            }
        }
    }
    steps
}

/// The steps from this square to each on an empty board. None if there is no such square, and for pawns.
fn steps_from(kind: Kind, from: usize) -> Option<[u8; 64]> {
    if from >= 64 || kind == Kind::Pawn {
        return None;
    }
    let start = Square::new(from as u8)?;
    let mut all = [64; 64];
    for to in 0..64 {
        all[to] = steps(kind, start, Square::new(to as u8)?);
    }
    Some(all)
}

/// Steps on an empty board, of each kind but pawns, between any two squares.
#[test]
fn tells_steps(rt: HostRuntime) {
    for kind in [
        Kind::Knight,
        Kind::Bishop,
        Kind::Rook,
        Kind::Queen,
        Kind::King,
    ] {
        for from in 0..64 {
            assert!(rt; steps_from(kind, from) == Some(breadth_first(kind, from)));
        }
    }
}

/// What a man costs on this square from this home, at these odds.
fn cost_at(odds: Odds, man: Man, s: u8, home: u8) -> Option<u8> {
    Some(move_cost(odds, man, Square::new(s)?, Square::new(home)?))
}

/// Colour, kind, square, home, moves.
#[test]
fn tells_costs(rt: HostRuntime) {
    let rows: [(Colour, Kind, u8, u8, u8); 12] = [
        (Colour::White, Kind::Pawn, 28, 12, 1),
        (Colour::White, Kind::Pawn, 20, 12, 1),
        (Colour::White, Kind::Pawn, 19, 12, 1),
        (Colour::White, Kind::Pawn, 27, 12, 2),
        (Colour::White, Kind::Pawn, 18, 12, 64),
        (Colour::White, Kind::Pawn, 4, 12, 64),
        (Colour::Black, Kind::Pawn, 36, 52, 1),
        (Colour::Black, Kind::Pawn, 35, 52, 2),
        (Colour::White, Kind::Queen, 60, 12, 5),
        (Colour::White, Kind::Knight, 0, 8, 9),
        (Colour::White, Kind::Bishop, 2, 5, 64),
        (Colour::White, Kind::King, 12, 60, 64),
    ];
    for (colour, kind, s, home, count) in rows {
        let man = Man { colour, kind };
        assert_eq!(rt; cost_at(Odds::none(), man, s, home), Some(count));
    }
}

/// What a white knight of f3 costs from the squares b1 and g1, at odds of these squares.
fn costs_of_knight(odds: u64) -> Option<[u8; 2]> {
    let odds = Odds::new(SquareSet::from_bits(odds))?;
    let knight = Man {
        colour: Colour::White,
        kind: Kind::Knight,
    };
    Some([cost_at(odds, knight, 21, 1)?, cost_at(odds, knight, 21, 6)?])
}

/// At odds of the knight of b1 no man began there, and one of g1 stands on f3 as ever.
#[test]
fn tells_costs_at_odds(rt: HostRuntime) {
    assert_eq!(rt; costs_of_knight(0), Some([2, 1]));
    assert_eq!(rt; costs_of_knight(2), Some([64, 1]));
}
