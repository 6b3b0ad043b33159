//! Lines of marks in words.

ghost use Rattle.std.specs.Prelude.{◌≡◌, ◌++◌, ◌∷◌, [], IfOk, List, Some, length, map};
ghost use Rattle.sketch_body.specs.Seen.{line_of};
ghost use Rattle.sketch_grounds.specs.FrozenSets.{greatest_frozen};
ghost use Rattle.sketch_proof.specs.Nodes.{marked_with};
ghost use Rattle.sketch_proof.specs.Proofs.{AreAllForced, AreForced, with_lines};
ghost use Rattle.sketch_prose.specs.Bases.{setting_with};
ghost use Rattle.sketch_prose.specs.Sentences.{unmoved};
ghost use Rattle.sketch_prose.specs.Telling.{Adds, mark_told, marks_told};
ghost use Rattle.capture_prices.specs.Prices.{PriceList};
ghost use Rattle.sketch_text.specs.Marks.{Marks};
ghost use Rattle.sketch_text.specs.Trees.{Line as ALine, of_marks};

use crate::bases::Base;
use board_base::SquareSet;
use capture_prices::Prices;
use figures::Sketch;
use sketch_body::SketchLine;
use sketch_grounds::greatest_frozen;
use sketch_proof::marked;
use sketch_text::MarkLine;
use sketch_words::{figures_list, push_fresh, push_marked, without};
use std::alloc::{AllocError, Global};

/// The sketch with the marks of a line, if they are forced.
fn marked_by(base: &Base, prices: &[Prices], sketch: &Sketch, marks: &MarkLine) -> Option<Sketch>
    ensures { AreForced (setting_with base.now prices.now) sketch.now marks.now → result ≡ Some (marked_with marks.now.figures sketch.now) }
{
    let by = usize::from(marks.by());
    if by == 0 || by > prices.len() {
        return None;
    }
    marked(
        sketch,
        base.held,
        base.odds,
        &prices[by - 1],
        marks.figures(),
    )
}

/// Who never moved, of those of whom it isn't known.
pub(crate) fn push_unmoved(
    alloc: Global,
    base: &Base,
    known: SquareSet,
    sketch: &Sketch,
    out: &mut Vec<u8>,
) -> Result<SquareSet, AllocError>
    ensures set { IfOk result (λ set. set ≡ greatest_frozen base.now.held sketch.now) }
    ensures told { IfOk result (λ _. (own : List PriceList) → Adds (setting_with base.now own) base.now.diagram (unmoved known sketch.now ∷ []) out.old.items out.new.items) }
{
    let set = greatest_frozen(sketch, base.held);
    push_fresh(alloc, base.held, without(set, known), out)?;
    Ok(set)
}

/// A line of marks, and who never moved too with them.
fn push_marks(
    alloc: Global,
    base: &Base,
    prices: &[Prices],
    sketch: Sketch,
    marks: &MarkLine,
    out: &mut Vec<u8>,
) -> Result<Sketch, AllocError>
    ensures { IfOk result (λ more. AreForced (setting_with base.now prices.now) sketch marks.now → (more ≡ marked_with marks.now.figures sketch) × Adds (setting_with base.now prices.now) base.now.diagram (mark_told (setting_with base.now prices.now) marks.now sketch) out.old.items out.new.items) }
{
    let officers = figures_list(alloc, false, &base.diagram, &sketch, marks.figures())?;
    let pawns = figures_list(alloc, true, &base.diagram, &sketch, marks.figures())?;
    push_marked(officers.as_slice(), pawns.as_slice(), out)?;
    let known = greatest_frozen(&sketch, base.held);
    match marked_by(base, prices, &sketch, marks) {
        Some(more) => {
            push_unmoved(alloc, base, known, &more, out)?;
            Ok(more)
        }
        None => Ok(sketch),
    }
}

/// The same of a line that is one of marks.
fn push_line(
    alloc: Global,
    base: &Base,
    prices: &[Prices],
    sketch: Sketch,
    line: &SketchLine,
    out: &mut Vec<u8>,
) -> Result<Sketch, AllocError>
    ensures { IfOk result (λ more. (m : Marks) → line_of line.now ≡ of_marks m → AreForced (setting_with base.now prices.now) sketch m → (more ≡ marked_with m.figures sketch) × Adds (setting_with base.now prices.now) base.now.diagram (mark_told (setting_with base.now prices.now) m sketch) out.old.items out.new.items) }
{
    match line {
        SketchLine::Node(_) => Ok(sketch),
        SketchLine::Marks(marks) => {
            let more = push_marks(alloc, base, prices, sketch, marks, out)?;
            Ok(more)
        }
    }
}

/// The first so many lines, which are lines of marks.
pub(crate) fn push_lines(
    alloc: Global,
    base: &Base,
    prices: &[Prices],
    sketch: Sketch,
    count: usize,
    lines: &[SketchLine],
    out: &mut Vec<u8>,
) -> Result<Sketch, AllocError>
    ensures { IfOk result (λ last. (ms : List Marks) (more : List ALine) → map line_of lines.now ≡ map (λ m. of_marks m) ms ++ more → length ms ≡ count → AreAllForced (setting_with base.now prices.now) ms sketch → (last ≡ with_lines ms sketch) × Adds (setting_with base.now prices.now) base.now.diagram (marks_told (setting_with base.now prices.now) ms sketch) out.old.items out.new.items) }
{
    let mut last = sketch;
    for i in 0..count {
        if lines.len() <= i {
            return Ok(last);
        }
        last = push_line(alloc, base, prices, last, &lines[i], out)?;
    }
    Ok(last)
}
