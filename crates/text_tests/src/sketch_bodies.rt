//! Lines below the first of sketches, and where they go bad: that is the number of the first line with which they begin no sketch, counted
//! from the one below the first. The good ones are the certificate of L'Alfiere, 1922, and small ones made by hand.

use sketch_body::SketchDue;
use sketch_text::read_sketch_head;

const PRICES: &str =
    "24 24 24 24 24 24 24 24 24 25 26 27 24 24 21 21 / 24 24 24 24 24 24 24 24 24 24 24 24 24 24 24 24 / h2 3 f3 3 h3 3 f4 3";

const NODE: &str = "now marks 1 steps 3";

const MARK: &str = "mark 1 4 6 13 14 15 16 17 18 22";

/// A first line, the lines below it, and how many of these are read; whether they are all that is due.
type Row = (&'static str, &'static [&'static str], usize, bool);

/// One of three children.
const CHILD: &str = "h3xg4nrq closed 1";

const ROWS: [Row; 35] = [
    (
        "sketch 1",
        &[
            PRICES,
            NODE,
            MARK,
            "b2=b1 closed 1",
            "a2xb1b= closed 1",
            CHILD,
        ],
        6,
        true,
    ),
    ("sketch 1", &[PRICES, NODE, MARK, CHILD, CHILD], 5, false),
    (
        "sketch 1",
        &[PRICES, NODE, MARK, CHILD, CHILD, CHILD, CHILD],
        6,
        true,
    ),
    (
        "sketch 1",
        &[PRICES, NODE, MARK, CHILD, CHILD, CHILD, ""],
        6,
        true,
    ),
    ("sketch 1", &[NODE], 0, false),
    ("sketch 1", &[PRICES, PRICES], 1, false),
    ("sketch 2", &[PRICES, NODE], 1, false),
    ("sketch 2", &[PRICES, PRICES, "now closed 2"], 3, true),
    ("sketch 1", &[PRICES, NODE, CHILD], 2, false),
    ("sketch 1", &[PRICES, NODE, MARK, MARK], 3, false),
    (
        "sketch 1",
        &[PRICES, "now marks 1 void", "mark 1 3 2"],
        2,
        false,
    ),
    (
        "sketch 1",
        &[PRICES, "now marks 1 void", "mark 1 0 2"],
        2,
        false,
    ),
    (
        "sketch 1",
        &[PRICES, "now marks 1 void", "mark 1 2 33"],
        2,
        false,
    ),
    (
        "sketch 1",
        &[PRICES, "now marks 1 void", "mark 1"],
        2,
        false,
    ),
    ("sketch 1", &[PRICES, "now marks 0 void"], 1, false),
    ("sketch 1", &[PRICES, "now marks 9 void"], 1, false),
    (
        "sketch 1",
        &[PRICES, "now marks 2 void", "mark 1 1", "mark 1 2 3"],
        4,
        true,
    ),
    ("sketch 0", &["now marks 1 void"], 0, false),
    (
        "sketch 1",
        &[PRICES, "now steps 1", "h3xg4p closed 0"],
        2,
        false,
    ),
    (
        "sketch 1",
        &[PRICES, "now steps 1", "h3xg4p closed 01"],
        2,
        false,
    ),
    (
        "sketch 1",
        &[PRICES, "now steps 1", "h3xg4p closed 2"],
        2,
        false,
    ),
    (
        "sketch 1",
        &[PRICES, "now steps 1", "h3xg4p0 closed 1"],
        2,
        false,
    ),
    (
        "sketch 1",
        &[PRICES, "now steps 1", "h3xg4p6 closed 1"],
        2,
        false,
    ),
    (
        "sketch 1",
        &[PRICES, "now steps 1", "h3xg4p5 closed 1"],
        3,
        true,
    ),
    (
        "sketch 1",
        &[PRICES, "now steps 1", "h3xg4p= closed 1"],
        2,
        false,
    ),
    (
        "sketch 1",
        &[PRICES, "now steps 1", "now closed 1"],
        2,
        false,
    ),
    (
        "sketch 1",
        &[PRICES, "now steps 1", "case n closed 1"],
        3,
        true,
    ),
    (
        "sketch 1",
        &[PRICES, "now steps 1", "case b closed 1"],
        2,
        false,
    ),
    (
        "sketch 1",
        &[PRICES, "now steps 1", "h3xg4b closed 1 "],
        2,
        false,
    ),
    ("sketch 1", &[PRICES, CHILD], 1, false),
    (
        "sketch 0",
        &["now split a1", "case n void", "case r void"],
        3,
        false,
    ),
    (
        "sketch 0",
        &["now split a1", "case n void", "case r void", "case q void"],
        4,
        true,
    ),
    ("sketch 0", &["now steps 0"], 1, true),
    ("sketch 0", &["now steps 1025"], 0, false),
    ("sketch 0", &["now steps 1024"], 1, false),
];

/// Lines of prices that are none.
const PRICES_NONE: [&str; 3] = [
    "24 24 24 24 24 24 24 24 24 25 26 27 24 24 21 97 / 24 24 24 24 24 24 24 24 24 24 24 24 24 24 24 24 / h2 3 f3 3 h3 3 f4 3",
    "24 24 24 24 24 24 24 24 24 25 26 27 24 24 21 21 / 24 24 24 24 24 24 24 24 24 24 24 24 24 24 24 24 / h2 3 f3 3 h3 3 f4 3 h4 0",
    "24 24 24 24 24 24 24 24 24 25 26 27 24 24 21 21 / 24 24 24 24 24 24 24 24 24 24 24 24 24 24 24 24 / h2 3 f3 3 h3 3 f4 3 a1 3",
];

fn due_below(head: &str, units: u32) -> Option<SketchDue> {
    match read_sketch_head(head.as_bytes()) {
        Some(head) => SketchDue::start(&head, units),
        None => None,
    }
}

/// How many of the lines are read, and whether they are all that is due.
fn read_below(head: &str, lines: &[&str]) -> (usize, bool) {
    let Some(mut due) = due_below(head, 0) else {
        return (0, false);
    };
    for (i, line) in lines.iter().enumerate() {
        if due.read(line.as_bytes()).is_none() {
            return (i, due.is_done());
        }
    }
    (lines.len(), due.is_done())
}

/// The first row of which it isn't so.
fn first_otherwise() -> Option<usize> {
    for (i, (head, lines, count, done)) in ROWS.iter().enumerate() {
        let (read, over) = read_below(head, lines);
        if read != *count || over != *done {
            return Some(i);
        }
    }
    for (i, prices) in PRICES_NONE.iter().enumerate() {
        if read_below("sketch 1", &[*prices]).0 != 0 {
            return Some(i);
        }
    }
    None
}

/// How many nodes are read that stand one below another.
fn depth() -> usize {
    let Some(mut due) = due_below("sketch 0", 0) else {
        return 0;
    };
    if due.read(b"now steps 1").is_none() {
        return 0;
    }
    for i in 0..100_usize {
        if due.read(b"a2-a3 steps 1").is_none() {
            return i;
        }
    }
    100
}

/// How many units are charged after this line, behind sketches with so many.
fn units_after(units: u32, line: &str) -> Option<u32> {
    let Some(mut due) = due_below("sketch 0", units) else {
        return None;
    };
    match due.read(line.as_bytes()) {
        Some(_) => Some(due.units()),
        None => None,
    }
}

#[test]
fn reads_sketches(rt: HostRuntime) {
    assert_eq!(rt; first_otherwise(), None);
    assert_eq!(rt; depth(), 63);
}

#[test]
fn counts_units(rt: HostRuntime) {
    assert_eq!(rt; units_after(0, "now void"), Some(1));
    assert_eq!(rt; units_after(0, "now steps 5"), Some(38));
    assert_eq!(rt; units_after(0, "now split a1"), Some(36));
    assert_eq!(rt; units_after(262_143, "now void"), Some(262_144));
    assert_eq!(rt; units_after(262_144, "now void"), None);
    assert_eq!(rt; units_after(262_111, "now steps 0"), Some(262_144));
    assert_eq!(rt; units_after(262_112, "now steps 0"), None);
}
