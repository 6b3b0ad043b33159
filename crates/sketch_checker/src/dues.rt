ghost use Rattle.std.specs.Prelude.{◌≡◌};
ghost use Rattle.sketch_proof.specs.Labelled.{label_for, way_for};
ghost use Rattle.sketch_checker.specs.DueNodes.{kind_of};
ghost use Rattle.sketch_checker.specs.Dues.{IsFirstOf, due_by};

use board_base::Kind;
use figures::Sketch;
use play_rules::is_end;
use sketch_proof::known_at;
use sketch_text::{Label, Officer, StepLabel, Taken, Victim, Way};
use sketch_walk::{Listed, StepsBack, Victim as WhoFell};
use std::marker::Model;

/// A node that is due: its label, and the sketch to which no game may come.
#[derive(Drop)]
pub struct Due {
    pub(crate) label: Label,
    pub(crate) sketch: Sketch,
}

impl Model for Due {
    ghost use Rattle.sketch_checker.specs.DueNodes.{Due as ADue};

    ghost Value = { ADue };

    ghost view = { λ d. record { label = d.label; sketch = d.sketch } };
}

/// The cases of the man with this number that are left, from this one on.
#[derive(Drop)]
pub struct Cases {
    pub(crate) officer: Officer,
    pub(crate) number: usize,
    pub(crate) sketch: Sketch,
}

/// Nodes that are due, those that aren't gone through yet.
#[derive(Drop)]
pub enum Left {
    /// None.
    Nothing,
    /// The first node of all, of this sketch.
    First(Sketch),
    /// One for each of these steps.
    Steps(StepsBack),
    /// One for each of these cases.
    Cases(Cases),
}

/// The way of a step, which was a promotion or not, with its victim, and with how many pawns were above.
fn way_for(promoted: bool, victim: WhoFell, above: u8) -> Way
    ensures { result ≡ way_for promoted victim above }
{
    match (promoted, victim) {
        (true, WhoFell::Nobody) => Way::Promotion,
        (false, WhoFell::Nobody) => Way::Straight,
        (_, WhoFell::TakenPawn) => Way::Capture(Victim::Pawn, above),
        (true, WhoFell::TakenBishop) => Way::CapturePromotion(Taken::Bishop),
        (false, WhoFell::TakenBishop) => Way::Capture(Victim::Bishop, above),
        (true, WhoFell::TakenOther) => Way::CapturePromotion(Taken::Officer),
        (false, WhoFell::TakenOther) => Way::Capture(Victim::Officer, above),
        (_, WhoFell::PassedPawn) => Way::Capture(Victim::EnPassant, above),
    }
}

/// The label of a listed step.
fn label_for(step: &Listed) -> Label
    ensures { result ≡ label_for step.now }
{
    Label::Step(StepLabel {
        from: step.from,
        to: step.to,
        way: way_for(is_end(step.to), step.victim, step.above),
    })
}

/// The kind that an officer is.
fn kind_of(officer: Officer) -> Kind
    ensures { result ≡ kind_of officer }
{
    match officer {
        Officer::Knight => Kind::Knight,
        Officer::Rook => Kind::Rook,
        Officer::Queen => Kind::Queen,
    }
}

/// The first of these steps as a node that is due, and the others.
fn next_step(steps: StepsBack) -> (Option<Due>, Left)
    ensures { IsFirstOf (due_by (Left.Steps steps)) result.0 (due_by result.1) }
{
    let mut left = steps;
    match left.next() {
        Some(earlier) => {
            let due = Due {
                label: label_for(&earlier.step),
                sketch: earlier.sketch,
            };
            (Some(due), Left::Steps(left))
        }
        None => (None, Left::Nothing),
    }
}

/// The first of these cases as a node that is due, and the others.
fn next_case(cases: Cases) -> (Option<Due>, Left)
    ensures { IsFirstOf (due_by (Left.Cases cases)) result.0 (due_by result.1) }
{
    let Cases {
        officer,
        number,
        sketch,
    } = cases;
    let due = Due {
        label: Label::Case(officer),
        sketch: known_at(&sketch, number, kind_of(officer)),
    };
    match officer {
        Officer::Knight => (
            Some(due),
            Left::Cases(Cases {
                officer: Officer::Rook,
                number,
                sketch,
            }),
        ),
        Officer::Rook => (
            Some(due),
            Left::Cases(Cases {
                officer: Officer::Queen,
                number,
                sketch,
            }),
        ),
        Officer::Queen => (Some(due), Left::Nothing),
    }
}

/// The first node that is due, and the others.
pub(crate) fn next_due(left: Left) -> (Option<Due>, Left)
    ensures { IsFirstOf (due_by left) result.0 (due_by result.1) }
{
    match left {
        Left::Nothing => (None, Left::Nothing),
        Left::First(sketch) => {
            let due = Due {
                label: Label::Now,
                sketch,
            };
            (Some(due), Left::Nothing)
        }
        Left::Steps(steps) => next_step(steps),
        Left::Cases(cases) => next_case(cases),
    }
}
