//! The nodes below one, as they are told together.

ghost use Rattle.std.specs.Prelude.{◌≡◌, ◌++◌, ◌≤◌, ◌<◌, ◌^◌, IfOk, List, drop, map};
ghost use Rattle.sketch_body.specs.Seen.{line_of};
ghost use Rattle.sketch_prose.specs.Bases.{setting_with};
ghost use Rattle.sketch_prose.specs.Behind.{AddsChild, count_below, due_behind, is_past};
ghost use Rattle.sketch_prose.specs.Children.{AreChildren, FlawOf};
ghost use Rattle.sketch_prose.specs.Dues.{due_by};
ghost use Rattle.sketch_prose.specs.Leaves.{leaf_of, own_line};
ghost use Rattle.sketch_prose.specs.declared.leaves.Leaf.TheVariants.{Astray};
ghost use Rattle.capture_prices.specs.Prices.{PriceList};
ghost use Rattle.sketch_checker.specs.Walks.{AreDue};
ghost use Rattle.sketch_proof.specs.Nodes.{IsVoid};
ghost use Rattle.sketch_proof.specs.Proofs.{Holds};
ghost use Rattle.sketch_text.specs.declared.labels.Label.{Label as ALabel};
ghost use Rattle.sketch_text.specs.Trees.{Line as ALine, Node as ANode, Nodes, count as count_nodes, lines_each, lines_of, of_node};

use crate::bases::Base;
use crate::dues::{Left, next_due};
use crate::foreigners::first_foreign;
use crate::leaves::{Leaf, leaf_of};
use figures::Sketch;
use sketch_body::SketchLine;
use sketch_grounds::greatest_frozen;
use sketch_text::{End, SketchNode};
use sketch_words::{Child, Flaw};
use std::alloc::{AllocError, Global};

/// How many nodes are below one that ends so.
fn count_below(end: End) -> usize
    ensures value { result ≡ count_below end }
    ensures few { result < 65536 }
{
    match end {
        End::Void | End::Closed(_) => 0,
        End::Steps(count) => usize::from(count),
        End::Split(_) => 3,
    }
}

/// Whether a node is on this line, and none was due before it.
fn is_past(due: usize, line: &SketchLine) -> bool
    ensures { result ≡ is_past due (line_of line.now) }
{
    match line {
        SketchLine::Marks(_) => false,
        SketchLine::Node(_) => due == 0,
    }
}

/// How many nodes are due behind this line, but so many at most.
fn due_behind(most: usize, due: usize, line: &SketchLine) -> usize
    requires within { due ≤ most }
    requires small { most ≤ 2 ^ 63 }
    ensures value { due_behind due (line_of line.now) ≤ most → result ≡ due_behind due (line_of line.now) }
    ensures few { result ≤ most }
{
    match line {
        SketchLine::Marks(_) => due,
        SketchLine::Node(node) => {
            let below = count_below(node.end);
            let more = due.saturating_sub(1) + below;
            if more > most { most } else { more }
        }
    }
}

/// The number of the line of the next node behind a node, whose own line has this number, and behind those below it.
fn behind_node(lines: &[SketchLine], first: usize) -> usize
    ensures { (x : ANode) (y : ANode) (rest : List ALine) → map line_of (drop first lines.now) ≡ lines_of x ++ (lines_of y ++ rest) → map line_of (drop result lines.now) ≡ lines_of y ++ rest }
{
    let most = lines.len() + 1;
    let mut due: usize = 1;
    for i in first..lines.len() {
        if is_past(due, &lines[i]) {
            return i;
        }
        due = due_behind(most, due, &lines[i]);
    }
    lines.len()
}

/// Why no man can have come to a void sketch.
fn foreign_flaw(base: &Base, sketch: &Sketch) -> Option<Flaw>
    ensures { (prices : List PriceList) → IsVoid base.now.odds base.now.held sketch.now → FlawOf Astray (setting_with base.now prices) sketch.now result }
{
    let set = greatest_frozen(sketch, base.held);
    match first_foreign(sketch, set, base.odds) {
        Some(s) => Some(Flaw::Foreign(s)),
        None => None,
    }
}

/// Why a node can't have been, if no more is told of it.
fn flaw_of(base: &Base, node: &SketchNode, sketch: &Sketch) -> Option<Flaw>
    ensures { (prices : List PriceList) (x : ANode) (label : ALabel) → node.now ≡ own_line x → Holds x (setting_with base.now prices) label sketch.now → FlawOf (leaf_of node.now) (setting_with base.now prices) sketch.now result }
{
    match leaf_of(node) {
        Leaf::Shut(_) => Some(Flaw::Unbalanced),
        Leaf::Astray => foreign_flaw(base, sketch),
        Leaf::Open => None,
    }
}

/// A node of this sketch, whose line this is.
fn push_child(
    base: &Base,
    line: &SketchLine,
    sketch: &Sketch,
    list: &mut Vec<Child>,
) -> Result<(), AllocError>
    ensures { IfOk result (λ _. (prices : List PriceList) (x : ANode) (label : ALabel) → line_of line.now ≡ of_node (own_line x) → Holds x (setting_with base.now prices) label sketch.now → AddsChild (own_line x) (setting_with base.now prices) label sketch.now list.old.items list.new.items) }
{
    match line {
        SketchLine::Marks(_) => Ok(()),
        SketchLine::Node(node) => {
            let flaw = flaw_of(base, node, sketch);
            list.push(Child {
                label: node.label,
                flaw,
            })?;
            Ok(())
        }
    }
}

/// So many nodes that are due, whose lines come first of these.
pub(crate) fn children_of(
    alloc: Global,
    base: &Base,
    due: Left,
    count: u16,
    lines: &[SketchLine],
) -> Result<Vec<Child>, AllocError>
    ensures { IfOk result (λ v. (prices : List PriceList) (ns : Nodes) (rest : List ALine) → count_nodes ns ≡ count → map line_of lines.now ≡ lines_each ns ++ rest → AreDue ns (setting_with base.now prices) (due_by due) → AreChildren ns (setting_with base.now prices) (due_by due) v.items) }
{
    let mut list = Vec::new(alloc);
    let mut left = due;
    let mut first: usize = 0;
    for i in 0..usize::from(count) {
        if lines.len() <= first {
            return Ok(list);
        }
        let (sketch, others) = next_due(left);
        left = others;
        let Some(sketch) = sketch else {
            return Ok(list);
        };
        push_child(base, &lines[first], &sketch, &mut list)?;
        first = behind_node(lines, first);
    }
    Ok(list)
}
