//! What is answered to certificates with sketches, with the first fault.

use crate::first_faults::checked;
use crate::streams::is_answered;
use cert_checker::{Refused, Why};
use std::alloc::{AllocError, Global};

const KING: &str = "retro 1\nclaim illegal\nfen 4k3/8/8/8/8/8/4PPPP/5BK1 w - -\nroot sketch 0\n";

/// The lines of L'Alfiere di Re, 1922, up to the node.
const HEAD: &str =
    "retro 1\nclaim lost Q\nfen 8/pbp5/1b6/8/PPPPPPP1/pprprpp1/2N1PR1n/R3K2k w - -\nroot sketch 2\n24 24 24 24 24 24 24 24 24 25 26 27 24 24 21 21 / 24 24 24 24 24 24 24 24 24 24 24 24 24 24 24 24 / h2 3 f3 3 h3 3 f4 3\n0 0 0 0 0 0 0 0 0 0 0 0 0 0 0 0 / 1 1 1 1 1 1 1 1 1 1 1 1 1 1 1 1 /\n";

/// The same with no right held.
const NO_RIGHT: &str =
    "retro 1\nclaim illegal\nfen 8/pbp5/1b6/8/PPPPPPP1/pprprpp1/2N1PR1n/R3K2k w - -\nroot sketch 2\n24 24 24 24 24 24 24 24 24 25 26 27 24 24 21 21 / 24 24 24 24 24 24 24 24 24 24 24 24 24 24 24 24 / h2 3 f3 3 h3 3 f4 3\n0 0 0 0 0 0 0 0 0 0 0 0 0 0 0 0 / 1 1 1 1 1 1 1 1 1 1 1 1 1 1 1 1 /\n";

const MARK: &str = "mark 1 4 6 13 14 15 16 17 18 22\n";

const FIRST: &str = "b2=b1 closed 2\na2xb1b= closed 2\n";

const LATER: &str = "g2xf1b= closed 2\ng2xf1nrq= closed 2\nh3xg4p closed 2\n";

const THIRD: &str = "a2xb1nrq= closed 2\n";

const LAST: &str = "h3xg4b closed 1\nh3xg4nrq closed 1\n";

/// The text of this head and these parts.
fn joined(alloc: Global, head: &str, parts: &[&str]) -> Result<Vec<u8>, AllocError> {
    let mut text = Vec::from_slice(alloc, head.as_bytes())?;
    for part in parts {
        text.extend_from_slice(part.as_bytes())?;
    }
    Ok(text)
}

/// Whether the text of this head and these parts is answered so, or is accepted if no refusal is given, whole and in pieces.
fn is_so(
    alloc: Global,
    head: &str,
    parts: &[&str],
    refused: Option<Refused>,
) -> Result<bool, AllocError> {
    let text = joined(alloc, head, parts)?;
    is_answered(alloc, text.as_slice(), refused)
}

fn rule(line: u32) -> Option<Refused> {
    Some(Refused::Unsupported {
        line,
        why: Why::Rule,
    })
}

fn stray(line: u32) -> Option<Refused> {
    Some(Refused::Unsupported {
        line,
        why: Why::Stray,
    })
}

/// White's king never left g1 and h1, and nobody captured as a pawn or was promoted.
#[test]
fn answers_to_a_sketch_of_one_node(rt: HostRuntime) {
    let rows: [(&str, Option<Refused>); 5] = [
        ("now steps 0\n", None),
        ("now void\n", rule(5)),
        ("now steps 1\na2-a3 void\n", stray(6)),
        (
            "now split g1\ncase n void\ncase r void\ncase q void\n",
            rule(5),
        ),
        (
            "now steps 0\nnow steps 0\n",
            Some(Refused::BadText { line: 6 }),
        ),
    ];
    for (node, refused) in rows {
        assert_eq!(rt; is_so(rt.alloc(), KING, &[node], refused), Ok(true));
    }
}

/// Two kings may be the array's; and nothing is said of a query with a pawn on rank 8.
#[test]
fn answers_to_what_can_be_the_array(rt: HostRuntime) {
    let array =
        "retro 1\nclaim illegal\nfen 4k3/8/8/8/8/8/8/4K3 w - -\nroot sketch 0\nnow steps 0\n";
    let pawn = "retro 1\nclaim illegal\nfen P3k3/8/8/8/8/8/8/4K3 w - -\nroot sketch 0\nnow void\n";
    assert_eq!(rt; is_so(rt.alloc(), array, &[], rule(5)), Ok(true));
    assert_eq!(rt; is_so(rt.alloc(), pawn, &[], rule(5)), Ok(true));
}

#[test]
fn answers_to_marks_and_steps(rt: HostRuntime) {
    let rows: [(&[&str], Option<Refused>); 7] = [
        (
            &["now marks 1 steps 8\n", MARK, FIRST, THIRD, LATER, LAST],
            None,
        ),
        // The third step, or the last one, isn't there; or one comes too many.
        (
            &["now marks 1 steps 7\n", MARK, FIRST, LATER, LAST],
            stray(11),
        ),
        (
            &[
                "now marks 1 steps 7\n",
                MARK,
                FIRST,
                THIRD,
                LATER,
                "h3xg4b closed 1\n",
            ],
            rule(7),
        ),
        (
            &[
                "now marks 1 steps 9\n",
                MARK,
                FIRST,
                THIRD,
                LATER,
                LAST,
                "g2xf1nrq= closed 1\n",
            ],
            stray(17),
        ),
        // A king is marked, and a figure that isn't there; a mark isn't forced at the second line.
        (&["now marks 1 steps 0\n", "mark 1 3\n"], rule(8)),
        (&["now marks 1 steps 0\n", "mark 1 31\n"], rule(8)),
        (&["now marks 1 steps 0\n", "mark 2 15\n"], rule(8)),
    ];
    for (parts, refused) in rows {
        assert_eq!(rt; is_so(rt.alloc(), HEAD, parts, refused), Ok(true));
    }
}

/// The first fault goes before later ones, and bad text before all.
#[test]
fn answers_the_first_fault_of_a_sketch(rt: HostRuntime) {
    let node = "now marks 1 steps 8\n";
    let open = "h3xg4b closed 2\nh3xg4b closed 1\n";
    let bad = "h3xg4b closed 2\nh3xg4nrq closed 3\n";
    let whole = [node, MARK, FIRST, THIRD, LATER, open];
    assert_eq!(rt; is_so(rt.alloc(), HEAD, &whole, rule(15)), Ok(true));
    let late = [node, MARK, FIRST, THIRD, LATER, bad];
    let bad_text = Some(Refused::BadText { line: 16 });
    assert_eq!(rt; is_so(rt.alloc(), HEAD, &late, bad_text), Ok(true));
    let other = [node, MARK, FIRST, THIRD, LATER, LAST];
    assert_eq!(rt; is_so(rt.alloc(), NO_RIGHT, &other, stray(9)), Ok(true));
    assert!(rt; checked(rt.alloc(), KING.as_bytes()) == Err(Refused::BadText { line: 5 }));
}
