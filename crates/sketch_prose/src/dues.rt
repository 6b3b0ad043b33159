//! Nodes that are due below one.

ghost use Rattle.std.specs.Prelude.{◌≡◌};
ghost use Rattle.sketch_checker.specs.DueNodes.{kind_of};
ghost use Rattle.sketch_prose.specs.Dues.{IsNext, due_by};

use board_base::Kind;
use figures::Sketch;
use sketch_checker::StepsBack;
use sketch_proof::known_at;
use sketch_text::Officer;

/// The cases of the man with this number that are left, from this one on.
#[derive(Drop)]
pub(crate) struct Cases {
    pub(crate) officer: Officer,
    pub(crate) number: usize,
    pub(crate) sketch: Sketch,
}

/// Nodes that are due, those that aren't told yet.
#[derive(Drop)]
pub(crate) enum Left {
    /// None.
    Nothing,
    /// The first node of all, of this sketch.
    First(Sketch),
    /// One for each of these steps.
    Steps(StepsBack),
    /// One for each of these cases.
    Cases(Cases),
}

/// The kind that an officer is.
fn kind_of(officer: Officer) -> Kind
    ensures { result ≡ kind_of officer }
{
    match officer {
        Officer::Knight => Kind::Knight,
        Officer::Rook => Kind::Rook,
        Officer::Queen => Kind::Queen,
    }
}

/// What was before the first of these steps, and the others.
fn next_step(steps: StepsBack) -> (Option<Sketch>, Left)
    ensures { IsNext (due_by (Left.Steps steps)) result.0 (due_by result.1) }
{
    let mut left = steps;
    match left.next() {
        Some(earlier) => (Some(earlier.sketch), Left::Steps(left)),
        None => (None, Left::Nothing),
    }
}

/// The sketch of the first of these cases, and the others.
fn next_case(cases: Cases) -> (Option<Sketch>, Left)
    ensures { IsNext (due_by (Left.Cases cases)) result.0 (due_by result.1) }
{
    let Cases {
        officer,
        number,
        sketch,
    } = cases;
    let known = known_at(&sketch, number, kind_of(officer));
    match officer {
        Officer::Knight => (
            Some(known),
            Left::Cases(Cases {
                officer: Officer::Rook,
                number,
                sketch,
            }),
        ),
        Officer::Rook => (
            Some(known),
            Left::Cases(Cases {
                officer: Officer::Queen,
                number,
                sketch,
            }),
        ),
        Officer::Queen => (Some(known), Left::Nothing),
    }
}

/// The sketch of the first node that is due, and the others.
pub(crate) fn next_due(left: Left) -> (Option<Sketch>, Left)
    ensures { IsNext (due_by left) result.0 (due_by result.1) }
{
    match left {
        Left::Nothing => (None, Left::Nothing),
        Left::First(sketch) => (Some(sketch), Left::Nothing),
        Left::Steps(steps) => next_step(steps),
        Left::Cases(cases) => next_case(cases),
    }
}
