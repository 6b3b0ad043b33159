//! The steps of a diagram's sketch, in the order of written certificates.

use fen_text::read_four_fields;
use figures::{Sketch, sketch_of};
use sketch_list::Victim;
use sketch_sets::{least_closed, trim};
use sketch_text::{Label, StepLabel, Taken, Victim as Named, Way, read_label};
use sketch_walk::{Listed, StepsBack};

/// A diagram, its exact files, the numbers of figures that are marked, counted from 1, and the labels of its steps.
#[derive(Drop)]
struct Case {
    name: &'static str,
    fen: &'static str,
    exact: [bool; 8],
    marks: &'static [usize],
    labels: &'static [&'static str],
}

/// No file.
const NO_FILES: [bool; 8] = [false; 8];

/// File a.
const FILE_A: [bool; 8] = [true, false, false, false, false, false, false, false];

/// The sketch, with the figures of these numbers marked.
fn marked(sketch: &Sketch, marks: &[usize]) -> Sketch {
    let mut result = Sketch::new();
    for (i, figure) in sketch.figures().iter().enumerate() {
        let mut other = *figure;
        other.marked = marks.contains(&(i + 1));
        if result.len() < 32 {
            result.push(other);
        }
    }
    result
}

/// How the pawn went, in a label.
fn way_of(step: &Listed) -> Way {
    let last = (step.to.rank() == 0) | (step.to.rank() == 7);
    match step.victim {
        Victim::Nobody => { if last { Way::Promotion } else { Way::Straight } }
        Victim::TakenPawn => Way::Capture(Named::Pawn, step.above),
        Victim::TakenBishop => {
            if last {
                Way::CapturePromotion(Taken::Bishop)
            } else {
                Way::Capture(Named::Bishop, step.above)
            }
        }
        Victim::TakenOther => {
            if last {
                Way::CapturePromotion(Taken::Officer)
            } else {
                Way::Capture(Named::Officer, step.above)
            }
        }
        Victim::PassedPawn => Way::Capture(Named::EnPassant, step.above),
    }
}

/// Whether the step has this label.
fn is_called(step: &Listed, text: &str) -> bool {
    let label = StepLabel {
        from: step.from,
        to: step.to,
        way: way_of(step),
    };
    read_label(text.as_bytes()) == Some(Label::Step(label))
}

/// How many labels the steps had, one after another, before the first that differed, and whether there were no more steps then. None if the
/// diagram can't be read or its sketch can't go back.
fn followed(case: &Case) -> Option<(usize, bool)> {
    let query = read_four_fields(case.fen.as_bytes())?;
    let sketch = marked(&trim(&sketch_of(&query.board)?), case.marks);
    let closed = least_closed(query.held, &case.exact, &sketch);
    let mut steps = StepsBack::new(query.odds, &case.exact, &closed)?;
    for (alike, text) in case.labels.iter().enumerate() {
        match steps.next() {
            Some(earlier) => {
                if !is_called(&earlier.step, text) {
                    return Some((alike, false));
                }
            }
            None => return Some((alike, true)),
        }
    }
    Some((case.labels.len(), steps.next().is_none()))
}

/// The steps of the first nodes of written certificates, as these list them.
#[test]
fn lists_the_steps_of_certificates(rt: HostRuntime) {
    let cases: [Case; 5] = [
        Case {
            name: "eight steps, promotions among them",
            fen: "8/pbp5/1b6/8/PPPPPPP1/pprprpp1/2N1PR1n/R3K2k w Q -",
            exact: NO_FILES,
            marks: &[4, 6, 13, 14, 15, 16, 17, 18, 22],
            labels: &[
                "b2=b1",
                "a2xb1b=",
                "a2xb1nrq=",
                "g2xf1b=",
                "g2xf1nrq=",
                "h3xg4p",
                "h3xg4b",
                "h3xg4nrq",
            ],
        },
        Case {
            name: "thirteen steps, some of two figures",
            fen: "K3k2r/1p2p1p1/p1p1p3/2Q1Np2/3n1P2/4PRP1/PPPPRrP1/n2bqB2 w k -",
            exact: NO_FILES,
            marks: &[2, 4, 9, 12, 13, 16, 17, 18, 19, 20, 21],
            labels: &[
                "h2xg1b=",
                "h2xg1nrq=",
                "h2xg3p",
                "h2xg3b",
                "h2xg3nrq",
                "h2xg1b=",
                "h2xg1nrq=",
                "d7xe6p",
                "d7xe6b",
                "d7xe6nrq",
                "f7xe6p",
                "f7xe6b",
                "f7xe6nrq",
            ],
        },
        Case {
            name: "two bishops who may have been promoted",
            fen: "1b3NrR/P1pp2pK/1p2p1RQ/5pP1/1P3p2/1P3k2/2PPP2P/N7 b - -",
            exact: NO_FILES,
            marks: &[1, 10, 11, 12, 13, 14, 15, 22, 24],
            labels: &[
                "e5xf4p1",
                "e5xf4b1",
                "e5xf4nrq1",
                "g5xf4p1",
                "g5xf4b1",
                "g5xf4nrq1",
                "e6xf5p1",
                "e6xf5b1",
                "e6xf5nrq1",
                "g6xf5p1",
                "g6xf5b1",
                "g6xf5nrq1",
                "e7xf6p",
                "e7xf6b",
                "e7xf6nrq",
                "a2=a1",
                "b2xa1b=",
                "b2xa1nrq=",
                "b2xc1b=",
                "b2xc1nrq=",
                "f2xe1b=",
                "f2xe1nrq=",
                "g2=g1",
                "f2xg1b=",
                "f2xg1nrq=",
                "a2=a1",
                "b2xa1b=",
                "b2xa1nrq=",
                "b2=b1",
                "a2xb1b=",
                "a2xb1nrq=",
                "b2xc1b=",
                "b2xc1nrq=",
                "f2xe1b=",
                "f2xe1nrq=",
                "f2=f1",
                "g2xf1b=",
                "g2xf1nrq=",
                "g2=g1",
                "f2xg1b=",
                "f2xg1nrq=",
                "g2xh1b=",
                "g2xh1nrq=",
            ],
        },
        Case {
            name: "moves straight on, on an exact file",
            fen: "1b3NrR/P1pp2pK/1p2ppRQ/6P1/1P3pk1/1b6/P1PPP2P/N7 w - -",
            exact: FILE_A,
            marks: &[1, 7, 8, 11, 12, 13, 14, 15, 16, 22, 23, 24, 25],
            labels: &[
                "e5xf4p1",
                "e5xf4b1",
                "e5xf4nrq1",
                "g5xf4p1",
                "g5xf4b1",
                "g5xf4nrq1",
                "e6xf5p1",
                "e6xf5b1",
                "e6xf5nrq1",
                "g6xf5p1",
                "g6xf5b1",
                "g6xf5nrq1",
                "e7xf6p",
                "e7xf6b",
                "e7xf6nrq",
                "a6-a7",
                "b6xa7p1",
                "b6xa7b1",
                "b6xa7nrq1",
            ],
        },
        Case {
            name: "pawns that had others above them, and one taken en passant",
            fen: "8/2Pp1ppP/1bpp1pp1/P7/p5NP/5P1N/P3P2P/R3K2k w Q -",
            exact: NO_FILES,
            marks: &[7, 8, 9, 10, 13, 18],
            labels: &[
                "g2xh3p2",
                "g2xh3b2",
                "g2xh3nrq2",
                "g3xh4p2",
                "g3xh4b2",
                "g3xh4nrq2",
                "b4xa5p",
                "b4xa5b",
                "b4xa5nrq",
                "b7xc6p",
                "b7xc6b",
                "b7xc6nrq",
                "e7xd6p",
                "e7xd6b",
                "e7xd6nrq",
                "e7xf6p",
                "e7xf6b",
                "e7xf6nrq",
                "h7xg6p",
                "h7xg6b",
                "h7xg6nrq",
                "g3xh4p2",
                "g3xh4b2",
                "g3xh4nrq2",
                "g4xh5p2",
                "g4xh5b2",
                "g4xh5nrq2",
                "g5xh6p2",
                "g5xh6b2",
                "g5xh6nrq2",
                "g5xh6ep2",
            ],
        },
    ];
    for case in &cases {
        assert_eq!(rt;
            followed(case),
            Some((case.labels.len(), true)),
            "{}",
            case.name
        );
    }
}
