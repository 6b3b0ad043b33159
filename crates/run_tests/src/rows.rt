//! Words and inputs whose runs are made to fail, and their answers.

use run_driver::{Row, Status};

/// No kings: the whole certificate has 64 bytes.
pub(crate) const NO_KINGS: Row = Row {
    words: &["check"],
    input: b"retro 1\nclaim illegal\nfen 8/8/8/8/8/8/8/8 w - -\nroot rule kings\n",
    status: Status::Done,
    text: b"accepted illegal 8/8/8/8/8/8/8/8 w - -\n",
};

/// The pawn on e4 is blocked.
pub(crate) const BLOCKED_PAWN: Row = Row {
    words: &["play"],
    input: b"rnbqkbnr/pppppppp/8/8/8/8/PPPPPPPP/RNBQKBNR w KQkq -\ne2e4 e7e5 e4e5\n",
    status: Status::Refused,
    text: b"refused ply 3\n",
};

/// A pawn that may have captured, also en passant.
pub(crate) const CAPTURES: Row = Row {
    words: &["unmoves"],
    input: b"4k3/8/3P4/8/8/8/8/4K2R b K -\n",
    status: Status::Done,
    text: b"c5d6xp 4k3/8/3p4/2P5/8/8/8/4K2R w K -
c5d6xn 4k3/8/3n4/2P5/8/8/8/4K2R w K -
c5d6xb 4k3/8/3b4/2P5/8/8/8/4K2R w K -
c5d6xr 4k3/8/3r4/2P5/8/8/8/4K2R w K -
c5d6xq 4k3/8/3q4/2P5/8/8/8/4K2R w K -
c5d6ep 4k3/8/8/2Pp4/8/8/8/4K2R w K d6
d5d6 4k3/8/8/3P4/8/8/8/4K2R w K -
e5d6xp 4k3/8/3p4/4P3/8/8/8/4K2R w K -
e5d6xn 4k3/8/3n4/4P3/8/8/8/4K2R w K -
e5d6xb 4k3/8/3b4/4P3/8/8/8/4K2R w K -
e5d6xr 4k3/8/3r4/4P3/8/8/8/4K2R w K -
e5d6xq 4k3/8/3q4/4P3/8/8/8/4K2R w K -
e5d6ep 4k3/8/8/3pP3/8/8/8/4K2R w K d6
total 13
",
};

/// White may still castle, and the last move was a double step: White can have made no move before it.
pub(crate) const DOUBLE_STEP: Row = Row {
    words: &["solve", "2", "10"],
    input: b"claim illegal\n4k3/8/8/3p4/8/8/P7/4K2R w K d6\n",
    status: Status::Done,
    text: b"retro 1\nclaim illegal\nfen 4k3/8/8/3p4/8/8/P7/4K2R w K d6\nroot expand 1\nd7d5 expand 0\n",
};

/// Black captured en passant, and so White's move before was the double step.
pub(crate) const TWO_STEPS: Row = Row {
    words: &["line"],
    input: b"retro line 1
claim line f4g3ep g2g4
fen B1Q5/4p1p1/7p/1P3r1q/1P6/P4Kp1/P2P4/7k w - -
part 87
retro 1
claim last f4g3
fen B1Q5/4p1p1/7p/1P3r1q/1P6/P4Kp1/P2P4/7k w - -
root expand 0
part 90
retro 1
claim last g2g4
fen B1Q5/4p1p1/7p/1P3r1q/1P3pP1/P4K2/P2P4/7k b - g3
root expand 0
",
    status: Status::Done,
    text: b"accepted line f4g3ep g2g4 B1Q5/4p1p1/7p/1P3r1q/1P6/P4Kp1/P2P4/7k w - -\n",
};
