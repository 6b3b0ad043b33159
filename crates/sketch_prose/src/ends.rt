//! The ends of nodes in words.

ghost use Rattle.std.specs.Prelude.{◌≡◌, ◌++◌, IfOk, List, false, map, ℕ};
ghost use Rattle.figures.specs.Figures.{Sketch as ASketch, fixed_squares};
ghost use Rattle.figures.specs.Homes.{may_be_array};
ghost use Rattle.sketch_proof.specs.Nodes.{IsFirstUnknown, IsLeastAbove, IsVoid};
ghost use Rattle.sketch_proof.specs.Proofs.{Ends};
ghost use Rattle.sketch_checker.specs.DueNodes.{cases_from, due_of};
ghost use Rattle.sketch_prose.specs.Bases.{setting_with};
ghost use Rattle.sketch_prose.specs.Dues.{due_by};
ghost use Rattle.sketch_text.specs.declared.labels.Officer.TheVariants.{Knight};
ghost use Rattle.sketch_prose.specs.Ending.{AddsDenials, SplitTold, StepsTold, VoidTold};
ghost use Rattle.sketch_prose.specs.Levels.{EndsTold, IsFit};
ghost use Rattle.sketch_words.specs.Crowds.{first_crowded, why_words};
ghost use Rattle.sketch_words.specs.Phrases.{settled_words, stepped_words};
ghost use Rattle.sketch_words.specs.Words.{set_words, without};
ghost use Rattle.sketch_grounds.specs.FrozenSets.{greatest_frozen};
ghost use Rattle.sketch_body.specs.Seen.{line_of};
ghost use Rattle.sketch_checker.specs.Walks.{AreDue};
ghost use Rattle.sketch_list.specs.Listed.{earlier};
ghost use Rattle.sketch_text.specs.Trees.{Line as ALine, Nodes, Reason, count as count_nodes, end_of, lines_below, lines_each};
ghost use Rattle.capture_prices.specs.Prices.{PriceList};

use crate::bases::Base;
use crate::children::children_of;
use crate::dues::{Cases, Left};
use crate::foreigners::first_foreign;
use crate::levels::Level;
use board_base::Square;
use figures::{Sketch, fixed_squares};
use prose_words::say;
use sketch_body::SketchLine;
use sketch_checker::StepsBack;
use sketch_grounds::greatest_frozen;
use sketch_proof::{before_steps, first_unknown};
use sketch_text::{End, Officer};
use sketch_words::{
    Spot, is_top, list_of, push_denials, push_foreign, push_settled, push_stepped, push_unknown,
    why_list, without,
};
use std::alloc::{AllocError, Global};

/// Who never moved, but isn't the array's.
fn push_void(base: &Base, sketch: &Sketch, out: &mut Vec<u8>) -> Result<(), AllocError>
    ensures { IfOk result (λ _. (prices : List PriceList) → IsVoid base.now.odds base.now.held sketch.now → VoidTold (setting_with base.now prices) sketch.now out.old.items out.new.items) }
{
    let set = greatest_frozen(sketch, base.held);
    match first_foreign(sketch, set, base.odds) {
        Some(s) => push_foreign(base.odds, s, out),
        None => Ok(()),
    }
}

/// Why there was a last step, and who can't have moved since then.
fn push_before(
    alloc: Global,
    base: &Base,
    first: bool,
    sketch: &Sketch,
    wide: &Sketch,
    count: u16,
    out: &mut Vec<u8>,
) -> Result<(), AllocError>
    ensures { IfOk result (λ _. out.new.items ≡ out.old.items ++ (stepped_words first base.now.exact (why_words base.now.odds base.now.diagram sketch.now wide.now (first_crowded base.now.odds wide.now)) count ++ settled_words (set_words (without (fixed_squares wide.now) (greatest_frozen base.now.held sketch.now))) count)) }
{
    let why = why_list(alloc, base.odds, &base.diagram, sketch, wide)?;
    push_stepped(alloc, first, &base.exact, why.as_slice(), count, out)?;
    let still = without(fixed_squares(wide), greatest_frozen(sketch, base.held));
    let list = list_of(alloc, still)?;
    push_settled(list.as_slice(), count, out)
}

/// Which of the nodes that are due, so many, can't have been.
fn push_denied_of(
    alloc: Global,
    base: &Base,
    spot: &Spot,
    due: Left,
    count: u16,
    lines: &[SketchLine],
    out: &mut Vec<u8>,
) -> Result<(), AllocError>
    ensures { IfOk result (λ _. (prices : List PriceList) (ns : Nodes) (rest : List ALine) → count_nodes ns ≡ count → map line_of lines.now ≡ lines_each ns ++ rest → AreDue ns (setting_with base.now prices) (due_by due) → AddsDenials ns (setting_with base.now prices) spot.now (due_by due) out.old.items out.new.items) }
{
    let children = children_of(alloc, base, due, count, lines)?;
    push_denials(base.odds, spot, children.as_slice(), out)
}

/// The same, and the level of its steps.
fn push_steps(
    alloc: Global,
    base: &Base,
    spot: Spot,
    sketch: &Sketch,
    count: u16,
    lines: &[SketchLine],
    out: &mut Vec<u8>,
) -> Result<Option<Level>, AllocError>
    ensures { IfOk result (λ below. (prices : List PriceList) (T : ASketch) (ns : Nodes) (rest : List ALine) → IsLeastAbove base.now.held base.now.exact sketch.now T → may_be_array base.now.odds T ≡ false → IsFit base.now.odds sketch.now → count_nodes ns ≡ count → map line_of lines.now ≡ lines_each ns ++ rest → AreDue ns (setting_with base.now prices) (map due_of (earlier base.now.odds base.now.exact T)) → StepsTold ns (setting_with base.now prices) base.now.diagram spot sketch.now below out.old.items out.new.items) }
{
    let Some(wide) = before_steps(sketch, base.held, &base.exact, base.odds) else {
        return Ok(None);
    };
    let Some(steps) = StepsBack::new(base.odds, &base.exact, &wide) else {
        return Ok(None);
    };
    let Some(same) = StepsBack::new(base.odds, &base.exact, &wide) else {
        return Ok(None);
    };
    push_before(alloc, base, is_top(&spot), sketch, &wide, count, out)?;
    push_denied_of(alloc, base, &spot, Left::Steps(same), count, lines, out)?;
    Ok(Some(Level {
        spot,
        number: 1,
        count,
        left: Left::Steps(steps),
    }))
}

/// All cases of the man with this number.
fn cases_of(number: usize, sketch: &Sketch) -> Left
    ensures { due_by result ≡ cases_from Knight number sketch.now }
{
    Left::Cases(Cases {
        officer: Officer::Knight,
        number,
        sketch: sketch.copied(),
    })
}

/// Of whom it isn't known what he was, and the level of his cases.
fn push_split(
    alloc: Global,
    base: &Base,
    spot: Spot,
    sketch: &Sketch,
    s: Square,
    lines: &[SketchLine],
    out: &mut Vec<u8>,
) -> Result<Option<Level>, AllocError>
    ensures { IfOk result (λ below. (prices : List PriceList) (i : ℕ) (ns : Nodes) (rest : List ALine) → IsFirstUnknown sketch.now s i → count_nodes ns ≡ 3 → map line_of lines.now ≡ lines_each ns ++ rest → AreDue ns (setting_with base.now prices) (cases_from Knight i sketch.now) → SplitTold ns (setting_with base.now prices) spot sketch.now s below out.old.items out.new.items) }
{
    let Some(number) = first_unknown(sketch, s) else {
        return Ok(None);
    };
    push_unknown(s, out)?;
    push_denied_of(alloc, base, &spot, cases_of(number, sketch), 3, lines, out)?;
    Ok(Some(Level {
        spot,
        number: 1,
        count: 3,
        left: cases_of(number, sketch),
    }))
}

/// The end of a node, and the level of the nodes below it, if there are any.
pub(crate) fn push_end(
    alloc: Global,
    base: &Base,
    spot: Spot,
    sketch: &Sketch,
    end: End,
    lines: &[SketchLine],
    out: &mut Vec<u8>,
) -> Result<Option<Level>, AllocError>
    ensures { IfOk result (λ below. (prices : List PriceList) (r : Reason) (rest : List ALine) → end ≡ end_of r → map line_of lines.now ≡ lines_below r ++ rest → Ends r (setting_with base.now prices) sketch.now → IsFit base.now.odds sketch.now → EndsTold r (setting_with base.now prices) base.now.diagram spot sketch.now below out.old.items out.new.items) }
{
    match end {
        End::Void => {
            push_void(base, sketch, out)?;
            Ok(None)
        }
        End::Closed(_) => {
            say(b" But the captures by pawns don't balance.", out)?;
            Ok(None)
        }
        End::Steps(count) => {
            let below = push_steps(alloc, base, spot, sketch, count, lines, out)?;
            Ok(below)
        }
        End::Split(s) => {
            let below = push_split(alloc, base, spot, sketch, s, lines, out)?;
            Ok(below)
        }
    }
}
