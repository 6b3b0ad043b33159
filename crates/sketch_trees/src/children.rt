ghost use Rattle.std.specs.Prelude.{◌≡◌, IsTrue, MatchOption, false};
ghost use Rattle.past_sketches.specs.Figures.{Sketch as ASketch};
ghost use Rattle.past_sketches.specs.Homes.{may_be_array};
ghost use Rattle.sketch_node.specs.Nodes.{IsLeastAbove};

use board_base::{CastleSet, Kind, Memory, Odds, Square};
use figures::Sketch;
use play_rules::is_end;
use sketch_node::{before_steps, case_of};
use sketch_text::{Label, Officer, StepLabel, Taken, Victim, Way};
use sketch_walk::{Earlier, Listed, StepsBack, Victim as WhoFell};
use std::alloc::Global;

/// What a tree asks of a sketch below it.
#[derive(Drop)]
pub struct Child {
    /// What leads to it.
    pub label: Label,
    /// The sketch to which no game may come.
    pub sketch: Sketch,
    /// The square of a man of whom it isn't known whether he is a knight, a rook or a queen, if one has just been put back.
    pub unknown: Option<Square>,
    /// When it is looked at: steps without a victim come first, and captures en passant before others.
    pub rank: u8,
}

/// What steps depend on beside a sketch.
#[derive(Clone, Copy)]
pub struct Setting {
    /// The men who are left out of the array.
    pub odds: Odds,
    /// The rights that are held.
    pub held: CastleSet,
    /// Whether each file, from a to h, is exact.
    pub exact: [bool; 8],
}

/// The way of a step, which was a promotion or not, with its victim, and with how many pawns were above.
fn way_for(promoted: bool, victim: WhoFell, above: u8) -> Way {
    match (promoted, victim) {
        (true, WhoFell::Nobody) => Way::Promotion,
        (false, WhoFell::Nobody) => Way::Straight,
        (_, WhoFell::TakenPawn) => Way::Capture(Victim::Pawn, above),
        (true, WhoFell::TakenBishop) => Way::CapturePromotion(Taken::Bishop),
        (false, WhoFell::TakenBishop) => Way::Capture(Victim::Bishop, above),
        (true, WhoFell::TakenOther) => Way::CapturePromotion(Taken::Officer),
        (false, WhoFell::TakenOther) => Way::Capture(Victim::Officer, above),
        (_, WhoFell::PassedPawn) => Way::Capture(Victim::EnPassant, above),
    }
}

/// The label of a listed step.
fn label_for(step: &Listed) -> Label {
    Label::Step(StepLabel {
        from: step.from,
        to: step.to,
        way: way_for(is_end(step.to), step.victim, step.above),
    })
}

/// The child by a step.
fn child_by(step: &Listed, sketch: Sketch) -> Child {
    let (unknown, rank) = match step.victim {
        WhoFell::Nobody => (None, 0),
        WhoFell::PassedPawn => (None, 1),
        WhoFell::TakenPawn | WhoFell::TakenBishop => (None, 2),
        WhoFell::TakenOther => (Some(step.to), 2),
    };
    Child {
        label: label_for(step),
        sketch,
        unknown,
        rank,
    }
}

/// The least closed sketch above a sketch. None comes if and only if it may be the array.
pub fn closed_above(sketch: &Sketch, setting: &Setting) -> Option<Sketch>
    ensures { MatchOption result ((T : ASketch) × IsLeastAbove setting.now.held setting.now.exact sketch.now T × IsTrue (may_be_array setting.now.odds T)) (λ T. IsLeastAbove setting.now.held setting.now.exact sketch.now T × (may_be_array setting.now.odds T ≡ false)) }
{
    before_steps(sketch, setting.held, &setting.exact, setting.odds)
}

/// What is before each step of a closed sketch; None if there are more steps than this.
pub fn steps_of(
    alloc: Global,
    wide: &Sketch,
    setting: &Setting,
    most: usize,
) -> Result<Option<Vec<Child>>, Memory> {
    let mut children = Vec::new(alloc);
    let Some(mut steps) = StepsBack::new(setting.odds, &setting.exact, wide) else {
        return Ok(None);
    };
    while let Some(earlier) = steps.next() {
        if children.len() >= most {
            return Ok(None);
        }
        let Earlier { step, sketch } = earlier;
        children.push(child_by(&step, sketch)).map_err(|_| Memory)?;
    }
    Ok(Some(children))
}

/// The kind that an officer is.
fn kind_of(officer: Officer) -> Kind {
    match officer {
        Officer::Knight => Kind::Knight,
        Officer::Rook => Kind::Rook,
        Officer::Queen => Kind::Queen,
    }
}

/// The cases of the unknown man on a square; none if there is no such man.
pub fn cases_of(alloc: Global, sketch: &Sketch, square: Square) -> Result<Vec<Child>, Memory> {
    let mut children = Vec::new(alloc);
    for officer in [Officer::Knight, Officer::Rook, Officer::Queen] {
        if let Some(sketch) = case_of(sketch, square, kind_of(officer)) {
            let child = Child {
                label: Label::Case(officer),
                sketch,
                unknown: None,
                rank: 0,
            };
            children.push(child).map_err(|_| Memory)?;
        }
    }
    Ok(children)
}
