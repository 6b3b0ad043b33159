//! Lines of sketches, and lines that are none. The good ones are of certificates for L'Alfiere, 1922, and others, or made by hand.

use sketch_text::{read_marks, read_sketch_head, read_sketch_node};

/// Lines that begin a sketch, and whether they do.
const HEADS: [(&str, bool); 8] = [
    ("sketch 1", true),
    ("sketch 0", true),
    ("sketch 64 files ah", true),
    ("sketch 65", false),
    ("sketch 01", false),
    ("sketch 1 files", false),
    ("sketch 1 files ba", false),
    ("sketch 1 files i", false),
];

/// Lines of nodes, with one line of prices, and whether they are.
const NODES: [(&str, bool); 22] = [
    ("now marks 1 steps 8", true),
    ("now void", true),
    ("b2=b1 closed 1", true),
    ("a2xb1nrq= closed 1", true),
    ("h3xg4p closed 1", true),
    ("h3xg4nrq2 steps 1024", true),
    ("d5xe6ep marks 8 split h8", true),
    ("g2-g3 steps 0", true),
    ("case q void", true),
    ("now", false),
    ("now closed 2", false),
    ("now steps 1025", false),
    ("now marks 0 void", false),
    ("now marks 9 void", false),
    ("now split i1", false),
    ("b2=b1  void", false),
    ("a2xb1p= void", false),
    ("h3xg4p0 void", false),
    ("h3xg4p6 void", false),
    ("h3xg4 void", false),
    ("case b void", false),
    ("g2-g3p void", false),
];

/// Lines of marks, with one line of prices, and whether they are.
const MARKS: [(&str, bool); 8] = [
    ("mark 1 4 6 13 14 15 16 17 18 22", true),
    ("mark 1 1 2 32", true),
    ("mark 1", false),
    ("mark 2 1", false),
    ("mark 1 0", false),
    ("mark 1 33", false),
    ("mark 1 2 2", false),
    ("mark 1 3 2", false),
];

/// The first line of which it isn't so.
fn first_otherwise() -> Option<&'static str> {
    for (line, good) in HEADS {
        if read_sketch_head(line.as_bytes()).is_some() != good {
            return Some(line);
        }
    }
    for (line, good) in NODES {
        if read_sketch_node(1, line.as_bytes()).is_some() != good {
            return Some(line);
        }
    }
    for (line, good) in MARKS {
        if read_marks(1, line.as_bytes()).is_some() != good {
            return Some(line);
        }
    }
    None
}

#[test]
fn reads_sketch_lines(rt: HostRuntime) {
    assert_eq!(rt; first_otherwise(), None);
}
