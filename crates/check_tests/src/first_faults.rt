//! What `check_bytes` answers, with the first fault.

use board_base::{Move, Square, Unmove};
use cert_checker::{Accepted, Refused, Why, check_bytes, one_answer, one_walk, walk_proves};
use std::alloc::Global;

const CHECKED: &[u8] =
    b"retro 1\nclaim illegal\nfen 4k3/2N3N1/8/8/8/8/8/4K3 b - -\nroot expand 0\n";

pub(crate) const DOUBLE_STEP: &[u8] =
    b"retro 1\nclaim illegal\nfen 4k3/8/8/3p4/8/8/P7/4K2R w K d6\nroot expand 1\nd7d5 expand 0\n";

const TWICE: &[u8] =
    b"retro 1\nclaim illegal\nfen 4k3/8/8/3p4/8/8/P7/4K2R w K d6\nroot expand 2\nd7d5 expand 0\nd7d5 expand 0\n";

const KING_MOVE: &[u8] = b"retro 1\nclaim illegal\nfen 4k3/8/8/8/8/8/8/4K3 w - -\nroot expand 0\n";

pub(crate) const ARRAY: &[u8] =
    b"retro 1\nclaim illegal\nfen rnbqkbnr/pppppppp/8/8/8/8/PPPPPPPP/RNBQKBNR w KQkq -\nroot expand 4\na6b8 rule kings\nc6b8 rule kings\nf6g8 rule kings\nh6g8 rule kings\n";

const NO_RULE: &[u8] =
    b"retro 1\nclaim illegal\nfen 4k3/4R3/8/8/8/8/8/4K3 b - -\nroot rule check\n";

// The bad line comes after a fault of the walk, and goes before it.
const TWICE_AND_MORE: &[u8] =
    b"retro 1\nclaim illegal\nfen 4k3/8/8/3p4/8/8/P7/4K2R w K d6\nroot expand 2\nd7d5 expand 0\nd7d5 expand 0\nx\n";

const EXTRA_LINE: &[u8] =
    b"retro 1\nclaim illegal\nfen 4k3/8/8/8/8/8/8/4K3 w - -\nroot expand 0\nx\n";

/// A byte that is no ASCII.
const NO_ASCII: &[u8] = b"retro 1\nclaim illegal\nfen 8/8/8/8/8/8/8/8 w - -\n\xffroot rule kings\n";

/// What `check_bytes` answers to a text, if it has no more bytes than it takes.
pub(crate) fn checked(alloc: Global, text: &[u8]) -> Result<Accepted, Refused> {
    if text.len() > 67_108_864 {
        return Err(Refused::Memory);
    }
    check_bytes(alloc, text)
}

fn unsupported(line: u32, why: Why) -> Option<Refused> {
    Some(Refused::Unsupported { line, why })
}

/// Texts, each with its refusal, or none if it proves its claim. No last move lets knights on c7 and g7 give check at once. After
/// Black's double step White can't have moved before it: king and rook are unmoved, and the pawn stands at home.
pub(crate) fn rows() -> [(&'static [u8], Option<Refused>); 9] {
    let king = Unmove {
        mv: Move {
            from: Square::known(51),
            to: Square::known(60),
            promo: None,
        },
        captured: None,
        ep: false,
    };
    [
        (CHECKED, None),
        (DOUBLE_STEP, None),
        (
            KING_MOVE,
            Some(Refused::Unlisted {
                line: 4,
                unmove: king,
            }),
        ),
        (TWICE, unsupported(6, Why::Stray)),
        (ARRAY, unsupported(4, Why::Array)),
        (NO_RULE, unsupported(4, Why::Rule)),
        (EXTRA_LINE, Some(Refused::BadText { line: 5 })),
        (TWICE_AND_MORE, Some(Refused::BadText { line: 7 })),
        (NO_ASCII, Some(Refused::BadText { line: 4 })),
    ]
}

#[test]
fn names_the_first_fault(rt: HostRuntime) {
    for (text, refused) in rows() {
        match refused {
            Some(refused) => assert!(rt; checked(rt.alloc(), text) == Err(refused)),
            None => assert!(rt; checked(rt.alloc(), text).is_ok()),
        }
    }
    walk_proves();
    one_walk();
    one_answer();
}
