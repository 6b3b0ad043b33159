//! The lines of nodes with the reason `balance`: a set, prices and gates. Lines that are none stand among the rows of `rows_run`.

use crate::written_certificates::{Written, length_again};
use board_base::{Colour, Unmove, read_unmove};
use capture_prices::Gate;
use cert_text::{BodyLine, NodeLine, Reason, read_line};
use std::alloc::{AllocError, Global};

/// What stands before the prices of the root's line.
const FRONT: &str = "root rule balance 0000000000004080";

/// Sixteen prices of nothing.
const FREE: &str = "0 0 0 0 0 0 0 0 0 0 0 0 0 0 0 0";

/// Sixteen of the highest.
const HIGH: &str = "96 96 96 96 96 96 96 96 96 96 96 96 96 96 96 96";

/// Sixteen gates, of the highest toll.
const GATES: &str =
    "a1 96 b1 96 c1 96 d1 96 e1 96 f1 96 g1 96 h1 96 a2 96 b2 96 c2 96 d2 96 e2 96 f2 96 g2 96 h2 96";

/// The prices of a line's two sides, and what follows them, if the line is good.
const GOOD: [(&str, &str, &str); 9] = [
    (FREE, FREE, ""),
    (HIGH, FREE, ""),
    (FREE, HIGH, ""),
    (HIGH, HIGH, " a1 96 b1 96 h8 1"),
    (FREE, FREE, " a1 1"),
    (FREE, FREE, " h8 96"),
    (FREE, FREE, " e3 12 e4 12"),
    (FREE, FREE, " h1 9 a2 10"),
    (
        "0 1 2 3 4 5 6 7 8 9 10 11 12 13 94 95",
        "96 0 96 0 96 0 96 0 9 0 9 0 90 0 90 0",
        " c6 1 d6 2 e6 3",
    ),
];

/// The first of the good lines that isn't written as it was read, and what is written of it.
fn first_changed(alloc: Global) -> Result<Option<(String, Written)>, AllocError> {
    for (white, black, gates) in GOOD {
        let text = format!(in alloc; "{FRONT} {white} / {black} /{gates}")?;
        if let Err(written) = length_again(text.as_bytes(), 0) {
            return Ok(Some((text, written)));
        }
    }
    Ok(None)
}

#[test]
fn reads_and_writes_balances(rt: HostRuntime) {
    assert_eq!(rt; first_changed(rt.alloc()), Ok(None));
}

/// The length of the longest line with this behind it, as `length_again` tells it.
fn longest(alloc: Global, behind: &str) -> Result<Result<usize, Written>, AllocError> {
    let text = format!(in alloc;
        "a7b8qxq rule balance ffffffffffffffff {HIGH} / {HIGH} / {GATES}{behind}"
    )?;
    Ok(length_again(text.as_bytes(), 1))
}

/// With sixteen gates, prices of two digits and the longest label the line has 233 bytes, and no line is longer. A seventeenth gate is one
/// too many.
#[test]
fn reads_the_longest_line(rt: HostRuntime) {
    assert_eq!(rt; longest(rt.alloc(), ""), Ok(Ok(233)));
    assert_eq!(rt; longest(rt.alloc(), " a3 1"), Ok(Err(None)));
}

/// Label, set, the prices of both sides, and the gates of a line.
type Parts = (Option<Unmove>, u64, [u8; 16], [u8; 16], [Gate; 2]);

/// The parts of a line with two gates.
fn parts_of(line: &NodeLine) -> Option<Parts> {
    let BodyLine::Rule(Reason::Balance(set, prices)) = &line.body else {
        return None;
    };
    let [first, second] = prices.gates() else {
        return None;
    };
    let white = *prices.takes(Colour::White);
    let black = *prices.takes(Colour::Black);
    Some((line.label, set.bits(), white, black, [*first, *second]))
}

/// What the parts of a line say: the ninth price is that of the dark squares of the file e, and 28 is the number of e4.
#[test]
fn tells_the_parts(rt: HostRuntime) {
    let text =
        b"a7b8qxq rule balance 0000000000004080 0 1 0 0 0 0 0 0 24 0 0 0 0 0 0 0 / 0 0 0 0 0 0 0 0 0 0 0 0 0 0 0 96 / e3 12 e4 1";
    let parts = match read_line(text, 1) {
        Some(line) => parts_of(&line),
        None => None,
    };
    let wanted = (
        read_unmove(b"a7b8qxq"),
        0x4080,
        [0, 1, 0, 0, 0, 0, 0, 0, 24, 0, 0, 0, 0, 0, 0, 0],
        [0, 0, 0, 0, 0, 0, 0, 0, 0, 0, 0, 0, 0, 0, 0, 96],
        [
            Gate {
                square: 20,
                toll: 12,
            },
            Gate {
                square: 28,
                toll: 1,
            },
        ],
    );
    assert_eq!(rt; parts, Some(wanted));
}
