//! Nodes of sketches: those of certificates for published problems, as far as no step is asked for, and situations that can't be the array.

use crate::price_lines::{ALFIERE_PRICES, FLAT, FOR_KNIGHT, FOR_QUEEN, FOR_ROOK, GATED, prices};
use board_base::{Colour, Kind, Square};
use fen_text::read_four_fields;
use figures::{Figure, KindSet, Sketch, only_on, sketch_of};
use sketch_account::closes;
use sketch_node::{before_steps, case_of, is_void, marked};

const ARRAY: &str = "rnbqkbnr/pppppppp/8/8/8/8/PPPPPPPP/RNBQKBNR w KQkq -";

const ALFIERE: &str = "8/pbp5/1b6/8/PPPPPPP1/pprprpp1/2N1PR1n/R3K2k w Q -";

const PRAGER: &str = "1B6/pp3pP1/5pP1/3Pp2P/3pK2k/3P3P/1P2RNrp/3QN2b w - -";

/// Why no game comes to a node: it is void, a line of prices closes it, or the least closed sketch above it, whose figures have so many
/// squares in all, can't be the array.
#[derive(Clone, Copy)]
enum End {
    Void,
    Closed(&'static str),
    Steps(u32),
}

/// A diagram, its lines of marks with the numbers of figures, and the end of the node.
#[derive(Clone, Copy)]
struct Node {
    fen: &'static str,
    first: Option<(&'static str, &'static [u8])>,
    second: Option<(&'static str, &'static [u8])>,
    end: End,
}

/// How many squares the figures have in all.
fn squares(sketch: &Sketch) -> u32 {
    let mut all = 0;
    for figure in sketch.figures() {
        all = figure.squares.bits().count_ones().saturating_add(all);
    }
    all
}

/// What the node says of its sketch. None if the diagram can't be read, or a mark isn't forced.
fn told(node: &Node) -> Option<bool> {
    let query = read_four_fields(node.fen.as_bytes())?;
    let mut sketch = sketch_of(&query.board)?;
    if let Some((line, numbers)) = node.first {
        sketch = marked(&sketch, query.held, query.odds, &prices(line)?, numbers)?;
    }
    if let Some((line, numbers)) = node.second {
        sketch = marked(&sketch, query.held, query.odds, &prices(line)?, numbers)?;
    }
    Some(match node.end {
        End::Void => is_void(&sketch, query.held, query.odds),
        End::Closed(line) => closes(&sketch, query.held, query.odds, &prices(line)?),
        End::Steps(all) => match before_steps(&sketch, query.held, &[false; 8], query.odds) {
            Some(wide) => squares(&wide) == all,
            None => false,
        },
    })
}

/// A node with one line of marks or none.
fn one_line(fen: &'static str, first: Option<(&'static str, &'static [u8])>, end: End) -> Node {
    Node {
        fen,
        first,
        second: None,
        end,
    }
}

/// A node with a line of marks for a knight and one for another, which is void.
fn two_lines(
    fen: &'static str,
    knight: &'static [u8],
    line: &'static str,
    other: &'static [u8],
) -> Node {
    Node {
        fen,
        first: Some((FOR_KNIGHT, knight)),
        second: Some((line, other)),
        end: End::Void,
    }
}

/// The first nodes of certificates for published problems: Taegliche Rundschau, 1913, L'Alfiere, 1922, Retrograde Analysis 51, and fifteen of
/// Prager Presse. Then five situations that a composer sees at a glance: four can't be the array, and in one a rook has come out past a pawn.
#[test]
fn nodes_hold(rt: HostRuntime) {
    let nodes = [
        one_line(
            "8/5p2/5p2/2R5/k5P1/P2PpP2/1PP1P2P/4K2R w K -",
            None,
            End::Closed(FLAT),
        ),
        one_line(
            "8/pbp5/1b6/8/PPPPPPP1/pprprpp1/2N1PR1n/R3K2k w Q -",
            Some((ALFIERE_PRICES, &[4, 6, 13, 14, 15, 16, 17, 18, 22])),
            End::Steps(100),
        ),
        one_line(
            "K3k2r/1p2p1p1/p1p1p3/2Q1Np2/3n1P2/4PRP1/PPPPRrP1/n2bqB2 w k -",
            Some((FLAT, &[2, 4, 9, 12, 13, 16, 17, 18, 19, 20, 21])),
            End::Steps(214),
        ),
        one_line(
            "1B6/pp3pP1/5pP1/3Pp2P/3pK2k/3P3P/1P2RNnp/3QN2b w - -",
            Some((FOR_KNIGHT, &[8])),
            End::Closed(GATED),
        ),
        two_lines(
            "1B6/pp3pP1/5pP1/3Pp2P/3pK2k/3P3P/1P2RNrp/3QN2b w - -",
            &[8],
            FOR_ROOK,
            &[10],
        ),
        two_lines(
            "1B6/pp3pP1/5pP1/3Pp2P/3pK2k/3P3P/1P2RNqp/3QN2b w - -",
            &[8],
            FOR_QUEEN,
            &[10],
        ),
        two_lines(
            "1B6/pp3pP1/5pP1/3Pp2P/3pK2k/3PN2P/1P2RNnp/3Q3b w - -",
            &[7],
            FOR_ROOK,
            &[10],
        ),
        two_lines(
            "1B6/pp3pP1/5pP1/3Pp2P/3pK2k/3PN2P/1P2RNrp/3Q3b w - -",
            &[7],
            FOR_ROOK,
            &[10],
        ),
        two_lines(
            "1B6/pp3pP1/5pP1/3Pp2P/3pK2k/3PN2P/1P2RNqp/3Q3b w - -",
            &[7],
            FOR_QUEEN,
            &[10],
        ),
        one_line(
            "1B6/pp3pP1/5pP1/3Pp2P/3pKN1k/3P3P/1P2RNnp/3Q3b w - -",
            Some((FOR_KNIGHT, &[7])),
            End::Closed(GATED),
        ),
        two_lines(
            "1B6/pp3pP1/5pP1/3Pp2P/3pKN1k/3P3P/1P2RNrp/3Q3b w - -",
            &[7],
            FOR_QUEEN,
            &[9],
        ),
        two_lines(
            "1B6/pp3pP1/5pP1/3Pp2P/3pKN1k/3P3P/1P2RNqp/3Q3b w - -",
            &[7],
            FOR_QUEEN,
            &[9],
        ),
        two_lines(
            "1B6/pp3pP1/4ppP1/3P3P/3pKN2/3P2kP/1P2RNnp/3Q3b w - -",
            &[7],
            FOR_QUEEN,
            &[10],
        ),
        two_lines(
            "1B6/pp3pP1/4ppP1/3P3P/3pKN2/3P2kP/1P2RNrp/3Q3b w - -",
            &[7],
            FOR_QUEEN,
            &[10],
        ),
        two_lines(
            "1B6/pp3pP1/4ppP1/3P3P/3pKN2/3P2kP/1P2RNqp/3Q3b w - -",
            &[7],
            FOR_QUEEN,
            &[10],
        ),
        two_lines(
            "1B6/pp3pP1/4ppP1/3PK2P/3pn3/3P2kP/1P2RNNp/3Q3b w - -",
            &[7],
            FOR_QUEEN,
            &[10],
        ),
        two_lines(
            "1B6/pp3pP1/4ppP1/3PK2P/3pr3/3P2kP/1P2RNNp/3Q3b w - -",
            &[7],
            FOR_QUEEN,
            &[10],
        ),
        two_lines(
            "1B6/pp3pP1/4ppP1/3PK2P/3pq3/3P2kP/1P2RNNp/3Q3b w - -",
            &[7],
            FOR_QUEEN,
            &[10],
        ),
        one_line(
            "rnbqkbnr/pppppppp/8/8/4K3/8/PPPPPPPP/RNBQ1BNR w - -",
            None,
            End::Steps(228),
        ),
        one_line("8/8/8/8/8/8/PPPP1PPP/4K2k w - -", None, End::Steps(76)),
        one_line("4k3/8/8/8/8/8/4PPPP/5BK1 w - -", None, End::Steps(64)),
        one_line(
            "rnbqkbnr/pppppppp/8/8/R7/P7/1PPPPPPP/1NBQKBNR w - -",
            None,
            End::Closed(FLAT),
        ),
        one_line(
            "rn2k2r/ppp1pppp/8/3p4/8/8/PPP1PPPP/RRR1K3 w q -",
            None,
            End::Steps(237),
        ),
    ];
    for node in &nodes {
        assert_eq!(rt; told(node), Some(true), "{}", node.fen);
    }
}

/// Nodes that don't hold: the array may be itself; a right or a mark that is needed is missing; and marks that can't be given, of
/// number 0, of a number that is no figure's, of a king, of the figure of a mark before, and of one who may have captured.
#[test]
fn other_nodes_fail(rt: HostRuntime) {
    let nodes = [
        (one_line(ARRAY, None, End::Void), Some(false)),
        (one_line(ARRAY, None, End::Closed(FLAT)), Some(false)),
        (one_line(ARRAY, None, End::Steps(164)), Some(false)),
        (
            one_line(
                "8/5p2/5p2/2R5/k5P1/P2PpP2/1PP1P2P/4K2R w - -",
                None,
                End::Closed(FLAT),
            ),
            Some(false),
        ),
        (
            one_line(PRAGER, Some((FOR_KNIGHT, &[8])), End::Void),
            Some(false),
        ),
        (
            one_line(ALFIERE, Some((ALFIERE_PRICES, &[0])), End::Steps(100)),
            None,
        ),
        (
            one_line(ALFIERE, Some((ALFIERE_PRICES, &[4, 30])), End::Steps(100)),
            None,
        ),
        (
            one_line(ALFIERE, Some((ALFIERE_PRICES, &[2])), End::Steps(100)),
            None,
        ),
        (
            one_line(ALFIERE, Some((ALFIERE_PRICES, &[8])), End::Steps(100)),
            None,
        ),
        (two_lines(PRAGER, &[8], FOR_KNIGHT, &[8]), None),
    ];
    for (node, answer) in nodes {
        assert_eq!(rt; told(&node), answer, "{}", node.fen);
    }
}

/// A white figure on this square, one of these kinds.
fn white_on(kinds: KindSet, s: Square) -> Figure {
    Figure {
        colour: Colour::White,
        kinds,
        squares: only_on(s),
        marked: false,
        place: 0,
    }
}

/// Whether the figures with the numbers 0, 1 and 2 may be rooks, if a rook is known on the square.
fn rooks_if_known(index: u8) -> Option<(bool, bool, bool)> {
    let mut sketch = Sketch::new();
    sketch.push(white_on(KindSet::one(Kind::Knight), Square::known(1)));
    sketch.push(white_on(KindSet::knight_rook_queen(), Square::known(2)));
    sketch.push(white_on(KindSet::knight_rook_queen(), Square::known(3)));
    let case = case_of(&sketch, Square::new(index)?, Kind::Knight)?;
    Some((
        case.get(0)?.may_be(Kind::Rook),
        case.get(1)?.may_be(Kind::Rook),
        case.get(2)?.may_be(Kind::Rook),
    ))
}

/// A case is of the one figure on the square that may be a knight, a rook or a queen.
#[test]
fn cases_are_of_one(rt: HostRuntime) {
    assert_eq!(rt; rooks_if_known(1), None);
    assert_eq!(rt; rooks_if_known(2), Some((false, false, true)));
    assert_eq!(rt; rooks_if_known(3), Some((false, true, false)));
    assert_eq!(rt; rooks_if_known(4), None);
}
