//! Claims of several steps: their lines, the first step that isn't listed, and the parts that are due.

use arrayvec::ArrayVec;
use board_base::{Castle, CastleSet, Kind, Man, Move, Square, Unmove};
use fen_text::read_four_fields;
use line_claims::{Due, StepList, read_line_claim, unlisted_step, write_line_claim};
use query_base::{Claim, Query};

const LINES: [&str; 4] = [
    "claim notboth K k",
    "claim notboth Q q",
    "claim line d7d5",
    "claim line b8a8xr a7b6",
];

const NO_LINES: [&str; 8] = [
    "claim notboth k K",
    "claim notboth K K",
    "claim notboth K  k",
    "claim line",
    "claim line ",
    "claim line d7d5 ",
    "claim line d7d5  e2e4",
    "claim both K k",
];

/// The line of the claim that a line is read as; nothing if it is none.
fn line_again(line: &str) -> ArrayVec<u8, 160> {
    let mut out = ArrayVec::new();
    if let Some(claim) = read_line_claim(line.as_bytes()) {
        write_line_claim(&claim, &mut out);
    }
    out
}

#[test]
fn reads_and_writes_the_lines(rt: HostRuntime) {
    for line in LINES {
        assert_eq!(rt; line_again(line).as_slice(), line.as_bytes());
    }
    for line in NO_LINES {
        assert!(rt; read_line_claim(line.as_bytes()).is_none(), "{line}");
    }
}

/// How many steps a list of these has, and the last of them.
fn length_and_last(steps: &[Unmove]) -> Option<(usize, Unmove)> {
    let list = StepList::new(steps)?;
    let last = *list.items().last()?;
    Some((list.items().len(), last))
}

fn step(from: Square, to: Square) -> Move {
    Move {
        from,
        to,
        promo: None,
    }
}

fn d7d5() -> Unmove {
    Unmove {
        mv: step(Square::known(51), Square::known(35)),
        captured: None,
        ep: false,
    }
}

#[test]
fn takes_one_to_sixteen_steps(rt: HostRuntime) {
    assert_eq!(rt; length_and_last(&[d7d5(); 16]), Some((16, d7d5())));
    assert!(rt; StepList::new(&[d7d5(); 17]).is_none());
    assert!(rt; StepList::new(&[]).is_none());
}

/// Two kings, of whom White's stands on a8 and moved last.
const IN_THE_CORNER: &[u8] = b"K7/8/1k6/8/8/8/8/8 b - -";

/// The first step of a line that isn't listed, if there is one.
fn unlisted_of(line: &str) -> Option<Option<u8>> {
    let query = read_four_fields(IN_THE_CORNER)?;
    let claim = read_line_claim(line.as_bytes())?;
    Some(unlisted_step(&query, &claim))
}

#[test]
fn names_the_first_unlisted_step(rt: HostRuntime) {
    for (line, number) in [
        ("claim line b8a8xr a1a8", None),
        ("claim line b8a8 a7b6", Some(2)),
        ("claim line c8a8", Some(1)),
        ("claim notboth K k", None),
    ] {
        assert_eq!(rt; (line, unlisted_of(line)), (line, Some(number)));
    }
}

/// All parts due of the claim of this line, if each of its steps is listed.
fn due_of(query: &Query, line: &[u8]) -> Option<Due> {
    let claim = read_line_claim(line)?;
    match unlisted_step(query, &claim) {
        None => Some(Due::new(query, &claim)),
        Some(_) => None,
    }
}

/// The kind of the man on a8 in the next part, if that is a claim that a query is illegal.
fn excluded(due: &mut Due) -> Option<Option<Kind>> {
    let (claim, query) = due.next()?;
    if claim == Claim::Illegal {
        Some(query.board.at(Square::known(56)).map(|man: Man| man.kind))
    } else {
        None
    }
}

/// The parts of a step: what is claimed of the query before it, whether a man stands on b8 there, and the kinds that are excluded on a8.
#[derive(Clone, Copy, PartialEq, Eq, Debug)]
struct StepParts {
    claim: Claim,
    on_b8: bool,
    excluded: [Option<Option<Kind>>; 4],
}

/// The next five parts, and the query of the first.
fn step_parts(due: &mut Due) -> Option<(StepParts, Query)> {
    let (claim, query) = due.next()?;
    let parts = StepParts {
        claim,
        on_b8: query.board.at(Square::known(57)).is_some(),
        excluded: [excluded(due), excluded(due), excluded(due), excluded(due)],
    };
    Some((parts, query))
}

/// The parts of both steps, if the first is about the query itself and there are no more.
fn parts_of_two_steps() -> Option<(StepParts, StepParts)> {
    let query = read_four_fields(IN_THE_CORNER)?;
    let mut due = due_of(&query, b"claim line b8a8xr a1a8")?;
    let (first, of_first) = step_parts(&mut due)?;
    let (second, _) = step_parts(&mut due)?;
    if of_first == query && due.next().is_none() {
        Some((first, second))
    } else {
        None
    }
}

#[test]
fn gives_the_parts_of_two_steps(rt: HostRuntime) {
    let [knight, bishop, rook, queen] = [
        Some(Some(Kind::Knight)),
        Some(Some(Kind::Bishop)),
        Some(Some(Kind::Rook)),
        Some(Some(Kind::Queen)),
    ];
    let first = StepParts {
        claim: Claim::Last(step(Square::known(57), Square::known(56))),
        on_b8: false,
        excluded: [Some(None), knight, bishop, queen],
    };
    let second = StepParts {
        claim: Claim::Last(step(Square::known(0), Square::known(56))),
        on_b8: true,
        excluded: [knight, bishop, rook, queen],
    };
    assert_eq!(rt; parts_of_two_steps(), Some((first, second)));
}

/// What is claimed in the part of two castlings, and what is held in its query, if there is one part.
fn part_of_two_castlings() -> Option<(Claim, CastleSet)> {
    let query = read_four_fields(b"4k2r/8/8/8/8/8/P7/4K2R b - -")?;
    let mut due = due_of(&query, b"claim notboth K k")?;
    let (claim, both) = due.next()?;
    if due.next().is_none() {
        Some((claim, both.held))
    } else {
        None
    }
}

#[test]
fn gives_the_part_of_two_castlings(rt: HostRuntime) {
    let held = CastleSet::none()
        .with(Castle::WhiteShort)
        .with(Castle::BlackShort);
    assert_eq!(rt; part_of_two_castlings(), Some((Claim::Illegal, held)));
}
