//! The nodes of a tree in words, one after another.

ghost use Rattle.std.specs.Prelude.{◌≡◌, ◌++◌, ◌∷◌, ◌+◌, ◌<◌, ◌≤◌, IfOk, List, drop, map, ℕ};
ghost use Rattle.sketch_body.specs.Seen.{line_of};
ghost use Rattle.sketch_prose.specs.Bases.{AreKnown, setting_with};
ghost use Rattle.sketch_prose.specs.Dues.{due_by};
ghost use Rattle.sketch_prose.specs.Levels.{AreLeft, GoesOn, IsHere, NodeTold, ToldWhole, back, behind, due_with};
ghost use Rattle.sketch_prose.specs.Telling.{next_number};
ghost use Rattle.sketch_text.specs.Trees.{Line as ALine, Node as ANode, Nodes, of_node};
ghost use Rattle.sketch_text.specs.declared.labels.Label.{Label as ALabel};

use crate::bases::Base;
use crate::dues::{Left, next_due};
use crate::leaves::{Leaf, leaf_of};
use crate::levels::{Level, Levels, next_level};
use crate::opening::push_open;
use capture_prices::Prices;
use figures::Sketch;
use sketch_body::SketchLine;
use sketch_text::SketchNode;
use sketch_words::{Spot, push_heading};
use std::alloc::{AllocError, Global};

/// The number of the next sibling that is told by itself.
fn next_number(leaf: Leaf, number: usize) -> usize
    requires { number ≤ 65536 }
    ensures value { result ≡ next_number leaf number }
    ensures few { result ≤ number + 1 }
{
    match leaf {
        Leaf::Open => number + 1,
        Leaf::Shut(_) | Leaf::Astray => number,
    }
}

/// The level behind a node of so many, which was told so.
fn behind(spot: Spot, number: usize, count: u16, left: Left, leaf: Leaf) -> Level
    requires some { 0 < count }
    requires low { number + count ≤ 65536 }
    ensures { result ≡ behind spot number count (due_by left) leaf }
{
    Level {
        spot,
        number: next_number(leaf, number),
        count: count - 1,
        left,
    }
}

/// A node among its siblings, and the level of the nodes below it, if there are any.
fn push_sibling(
    alloc: Global,
    base: &Base,
    prices: &[Prices],
    spot: &Spot,
    number: usize,
    sketch: Sketch,
    node: &SketchNode,
    lines: &[SketchLine],
    out: &mut Vec<u8>,
) -> Result<Option<Level>, AllocError>
    ensures { IfOk result (λ below. AreKnown prices.now → (x : ANode) (ns : Nodes) (label : ALabel) (left : ℕ) (rest : List ALine) → IsHere x ns (due_with label sketch) (setting_with base.now prices.now) left node.now (map line_of lines.now) rest → NodeTold x (setting_with base.now prices.now) base.now.diagram spot.now number (due_with label sketch) below out.old.items out.new.items) }
{
    match leaf_of(node) {
        Leaf::Shut(_) => Ok(None),
        Leaf::Astray => Ok(None),
        Leaf::Open => {
            push_heading(spot, number, &node.label, out)?;
            let below = push_open(alloc, base, prices, spot, number, sketch, node, lines, out)?;
            Ok(below)
        }
    }
}

/// The level behind a node, and below it that of the nodes below it, if there are any.
fn push_levels(levels: &mut Levels, next: Level, below: Option<Level>) -> Result<(), AllocError>
    ensures { IfOk result (λ _. levels.new ≡ back below (next ∷ levels.old)) }
{
    levels.push(next)?;
    match below {
        Some(level) => levels.push(level),
        None => Ok(()),
    }
}

/// The first node of the lowest level, whose line comes before these.
fn push_node(
    alloc: Global,
    base: &Base,
    prices: &[Prices],
    level: Level,
    levels: &mut Levels,
    node: &SketchNode,
    lines: &[SketchLine],
    out: &mut Vec<u8>,
) -> Result<(), AllocError>
    requires { 0 < level.count }
    ensures { IfOk result (λ _. AreKnown prices.now → (fs : List Nodes) → AreLeft (setting_with base.now prices.now) (level ∷ levels.old) fs (of_node node.now ∷ map line_of lines.now) → GoesOn (setting_with base.now prices.now) base.now.diagram (level ∷ levels.old) fs levels.new (drop node.now.marks (map line_of lines.now)) out.old.items out.new.items) }
{
    let Level {
        spot,
        number,
        count,
        left,
    } = level;
    let (first, left) = next_due(left);
    let Some(sketch) = first else {
        return Ok(());
    };
    let below = push_sibling(alloc, base, prices, &spot, number, sketch, node, lines, out)?;
    let next = behind(spot, number, count, left, leaf_of(node));
    push_levels(levels, next, below)
}

/// The next node, if this is its line, which comes before these; the answer is how many of them are its marks.
fn push_next(
    alloc: Global,
    base: &Base,
    prices: &[Prices],
    levels: &mut Levels,
    line: &SketchLine,
    lines: &[SketchLine],
    out: &mut Vec<u8>,
) -> Result<u8, AllocError>
    ensures { IfOk result (λ n. AreKnown prices.now → (fs : List Nodes) → AreLeft (setting_with base.now prices.now) levels.old fs (line_of line.now ∷ map line_of lines.now) → GoesOn (setting_with base.now prices.now) base.now.diagram levels.old fs levels.new (drop n (map line_of lines.now)) out.old.items out.new.items) }
{
    let Some(level) = next_level(levels) else {
        return Ok(0);
    };
    match line {
        SketchLine::Marks(_) => Ok(0),
        SketchLine::Node(node) => {
            push_node(alloc, base, prices, level, levels, node, lines, out)?;
            Ok(node.marks)
        }
    }
}

/// The next line, which comes before these, if so many lines that were told aren't skipped first; the answer is how many still are.
fn push_line(
    alloc: Global,
    base: &Base,
    prices: &[Prices],
    levels: &mut Levels,
    skipped: u8,
    line: &SketchLine,
    lines: &[SketchLine],
    out: &mut Vec<u8>,
) -> Result<u8, AllocError>
    ensures { IfOk result (λ n. AreKnown prices.now → (fs : List Nodes) → AreLeft (setting_with base.now prices.now) levels.old fs (drop skipped (line_of line.now ∷ map line_of lines.now)) → GoesOn (setting_with base.now prices.now) base.now.diagram levels.old fs levels.new (drop n (map line_of lines.now)) out.old.items out.new.items) }
{
    if skipped > 0 {
        return Ok(skipped - 1);
    }
    let marks = push_next(alloc, base, prices, levels, line, lines, out)?;
    Ok(marks)
}

/// All nodes that are left, whose lines these are.
pub(crate) fn push_all(
    alloc: Global,
    base: &Base,
    prices: &[Prices],
    levels: &mut Levels,
    lines: &[SketchLine],
    out: &mut Vec<u8>,
) -> Result<(), AllocError>
    ensures { IfOk result (λ _. AreKnown prices.now → (fs : List Nodes) → AreLeft (setting_with base.now prices.now) levels.old fs (map line_of lines.now) → ToldWhole (setting_with base.now prices.now) base.now.diagram levels.old fs out.old.items out.new.items) }
{
    let mut skipped: u8 = 0;
    for i in 0..lines.len() {
        skipped = push_line(
            alloc,
            base,
            prices,
            levels,
            skipped,
            &lines[i],
            &lines[i + 1..],
            out,
        )?;
    }
    Ok(())
}
