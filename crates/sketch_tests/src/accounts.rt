//! The account of a diagram's sketch, and marks that it forces.

use crate::price_lines::{ALFIERE_PRICES, FLAT, FOR_KNIGHT, GATED, prices};
use fen_text::read_four_fields;
use figures::{Sketch, sketch_of};
use sketch_account::{closes, forces};

/// A diagram and prices, the numbers of figures that are marked, the numbers of others whom the prices are to force then, the number of one
/// whom they are not to force, if one is named, and whether the account with all these marks is to close the sketch.
#[derive(Drop)]
struct Case {
    name: &'static str,
    fen: &'static str,
    prices: &'static str,
    marks: &'static [usize],
    forced: &'static [usize],
    other: Option<usize>,
    closed: bool,
}

/// The sketch, with the figure of this number marked.
fn marked(sketch: &Sketch, i: usize) -> Sketch {
    let mut result = Sketch::new();
    for j in 0..sketch.len() {
        if let Some(mut figure) = sketch.get(j) {
            figure.marked = figure.marked | (i == j);
            if result.len() < 32 {
                result.push(figure);
            }
        }
    }
    result
}

/// Whether each figure is forced that is to be, whether the other is, and whether the account closes the sketch with the marks. None if the
/// diagram or the prices can't be read.
fn weighed(case: &Case) -> Option<(bool, bool, bool)> {
    let query = read_four_fields(case.fen.as_bytes())?;
    let prices = prices(case.prices)?;
    let sketch = sketch_of(&query.board)?;
    let mut with_marks = sketch.copied();
    for i in case.marks {
        with_marks = marked(&with_marks, *i);
    }
    let before = with_marks.copied();
    let other = match case.other {
        Some(i) => forces(&before, i, query.held, query.odds, &prices),
        None => false,
    };
    let mut all = true;
    for i in case.forced {
        all = all & forces(&before, *i, query.held, query.odds, &prices);
        with_marks = marked(&with_marks, *i);
    }
    Some((
        all,
        other,
        closes(&with_marks, query.held, query.odds, &prices),
    ))
}

/// Diagrams with prices by which their accounts force marks and close the sketch, and some by which they don't. The numbers are counted from
/// 0 in the order of the squares. Each diagram but the last two is of a published problem whose account closes, or forces these marks.
#[test]
fn weighs_sketches(rt: HostRuntime) {
    let cases: [Case; 6] = [
        Case {
            name: "promoted rooks and pawns on their files",
            fen: "8/5p2/5p2/2R5/k5P1/P2PpP2/1PP1P2P/4K2R w K -",
            prices: FLAT,
            marks: &[],
            forced: &[],
            other: None,
            closed: true,
        },
        Case {
            name: "the same without the right",
            fen: "8/5p2/5p2/2R5/k5P1/P2PpP2/1PP1P2P/4K2R w - -",
            prices: FLAT,
            marks: &[],
            forced: &[],
            other: Some(13),
            closed: false,
        },
        Case {
            name: "officers and pawns that are forced",
            fen: "8/pbp5/1b6/8/PPPPPPP1/pprprpp1/2N1PR1n/R3K2k w Q -",
            prices: ALFIERE_PRICES,
            marks: &[],
            forced: &[3, 5, 12, 13, 14, 15, 16, 17, 21],
            other: Some(7),
            closed: false,
        },
        Case {
            name: "closed with one mark",
            fen: "1B6/pp3pP1/5pP1/3Pp2P/3pK2k/3P3P/1P2RNnp/3QN2b w - -",
            prices: GATED,
            marks: &[7],
            forced: &[],
            other: None,
            closed: true,
        },
        Case {
            name: "the mark that is forced",
            fen: "1B6/pp3pP1/5pP1/3Pp2P/3pK2k/3P3P/1P2RNnp/3QN2b w - -",
            prices: FOR_KNIGHT,
            marks: &[],
            forced: &[7],
            other: Some(3),
            closed: false,
        },
        Case {
            name: "a king beside men who never moved",
            fen: "4k3/8/8/8/8/8/4PPPP/5BK1 w - -",
            prices: FLAT,
            marks: &[],
            forced: &[],
            other: Some(0),
            closed: false,
        },
    ];
    for case in &cases {
        assert_eq!(rt;
            weighed(case),
            Some((true, false, case.closed)),
            "{}",
            case.name
        );
    }
}
