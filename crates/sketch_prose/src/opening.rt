//! Nodes that are told by themselves, up to what is below them.

ghost use Rattle.std.specs.Prelude.{◌≡◌, ◌++◌, ◌∷◌, [], IfOk, List, codes, drop, length, map};
ghost use Rattle.std.specs.Fmt.{decimal};
ghost use Rattle.sketch_body.specs.Seen.{line_of};
ghost use Rattle.sketch_proof.specs.Proofs.{AreAllForced, Ends, with_lines};
ghost use Rattle.sketch_prose.specs.Bases.{setting_with};
ghost use Rattle.sketch_prose.specs.Levels.{IsFit, OpenTold};
ghost use Rattle.sketch_prose.specs.Telling.{prefix_below, spot_below};
ghost use Rattle.sketch_text.specs.Marks.{Marks};
ghost use Rattle.sketch_text.specs.Trees.{Line as ALine, Reason, end_of, lines_below, of_marks};

use crate::bases::Base;
use crate::ends::push_end;
use crate::levels::Level;
use crate::marks::{push_lines, push_unmoved};
use board_base::SquareSet;
use capture_prices::Prices;
use figures::Sketch;
use prose_words::{push_number, say};
use sketch_body::SketchLine;
use sketch_grounds::greatest_frozen;
use sketch_text::{Label, SketchNode};
use sketch_words::Spot;
use std::alloc::{AllocError, Global};

/// These letters, kept.
fn copied(alloc: Global, text: &[u8]) -> Result<Vec<u8>, AllocError>
    ensures { IfOk result (λ v. v.items ≡ text.now) }
{
    let mut own = Vec::new(alloc);
    say(text, &mut own)?;
    Ok(own)
}

/// What the numbers below the one with this number begin with.
fn more_numbers(alloc: Global, prefix: &[u8], number: usize) -> Result<Vec<u8>, AllocError>
    ensures { IfOk result (λ v. v.items ≡ prefix.now ++ decimal number ++ codes ".") }
{
    let mut own = copied(alloc, prefix)?;
    push_number(number, &mut own)?;
    say(b".", &mut own)?;
    Ok(own)
}

/// What the numbers below a node begin with: that of the node itself, if it has one.
fn prefix_below(
    alloc: Global,
    label: &Label,
    spot: &Spot,
    number: usize,
) -> Result<Vec<u8>, AllocError>
    ensures { IfOk result (λ v. v.items ≡ prefix_below label.now spot.now number) }
{
    match label {
        Label::Now => copied(alloc, spot.prefix.as_slice()),
        Label::Step(_) | Label::Case(_) => more_numbers(alloc, spot.prefix.as_slice(), number),
    }
}

/// A line below one begins so.
fn lead_below(alloc: Global, lead: &[u8]) -> Result<Vec<u8>, AllocError>
    ensures { IfOk result (λ v. v.items ≡ lead.now ++ codes " ") }
{
    let mut own = copied(alloc, lead)?;
    say(b" ", &mut own)?;
    Ok(own)
}

/// Where the nodes below one are told.
fn spot_below(
    alloc: Global,
    label: &Label,
    spot: &Spot,
    number: usize,
    known: SquareSet,
) -> Result<Spot, AllocError>
    ensures { IfOk result (λ below. below ≡ spot_below label.now spot.now number known) }
{
    let prefix = prefix_below(alloc, label, spot, number)?;
    let lead = lead_below(alloc, spot.lead.as_slice())?;
    Ok(Spot {
        lead,
        prefix,
        known,
    })
}

/// The lines behind so many.
fn behind_marks(lines: &[SketchLine], marks: usize) -> &[SketchLine]
    ensures { result.now ≡ drop marks lines.now }
{
    if marks > lines.len() {
        return &[];
    }
    &lines[marks..]
}

/// What is told of a node behind its number, and the level of the nodes below it, if there are any.
pub(crate) fn push_open(
    alloc: Global,
    base: &Base,
    prices: &[Prices],
    spot: &Spot,
    number: usize,
    sketch: Sketch,
    node: &SketchNode,
    lines: &[SketchLine],
    out: &mut Vec<u8>,
) -> Result<Option<Level>, AllocError>
    ensures { IfOk result (λ below. (ms : List Marks) (r : Reason) (more : List ALine) → map line_of lines.now ≡ map (λ m. of_marks m) ms ++ (lines_below r ++ more) → length ms ≡ node.now.marks → node.now.end ≡ end_of r → AreAllForced (setting_with base.now prices.now) ms sketch → Ends r (setting_with base.now prices.now) (with_lines ms sketch) → IsFit base.now.odds sketch → OpenTold ms r (setting_with base.now prices.now) base.now.diagram node.now.label spot.now number sketch below out.old.items out.new.items) }
{
    push_unmoved(alloc, base, spot.known, &sketch, out)?;
    let last = push_lines(
        alloc,
        base,
        prices,
        sketch,
        usize::from(node.marks),
        lines,
        out,
    )?;
    let known = greatest_frozen(&last, base.held);
    let below = spot_below(alloc, &node.label, spot, number, known)?;
    let level = push_end(
        alloc,
        base,
        below,
        &last,
        node.end,
        behind_marks(lines, usize::from(node.marks)),
        out,
    )?;
    Ok(level)
}
