ghost use Rattle.std.specs.Prelude.{◌≡◌, ◌<◌, ◌≤◌, ◌∷◌, ◌↔◌, IsTrue, List, ℕ, length, map, reverse, suc};
ghost use Rattle.arrayvec.specs.ArrayVec.{array_vec_len};
ghost use Rattle.cert_text.specs.Due.{nodes_due, put_due, step};
ghost use Rattle.cert_checker.specs.Counting.{AreCounts, CountsTo, IfCounted, IfSketch, IsDue, SomeDue, counts_with};
ghost use Rattle.cert_checker.specs.Framing.{due_of, popped};

use crate::frames::Frame;
use crate::sketching::Sketching;
use arrayvec::ArrayVec;
use cert_text::{BodyLine, read_kid_line};
use sketch_text::SketchHead;

/// Keeps of the frames the numbers of children due.
pub(crate) fn count_frames(frames: &[Frame], counts: &mut ArrayVec<u32, 256>)
    requires { length frames.now ≤ 256 }
    ensures { counts.new.items ≡ map due_of frames.now }
{
    counts.clear();
    for i in 0..frames.len() {
        let frame = &frames[i];
        counts.push(frame.due);
    }
}

/// Takes off one child of the innermost node, and puts on what is due below this child, if it has children.
fn put_counts(counts: &mut ArrayVec<u32, 256>, body: &BodyLine)
    requires room { array_vec_len counts.old < 256 }
    requires open { SomeDue (reverse counts.old.items) }
    ensures { (due : ℕ) (above : List ℕ) → reverse counts.old.items ≡ suc due ∷ above → reverse counts.new.items ≡ counts_with body.now (due ∷ above) }
{
    let last = counts.len() - 1;
    counts[last] -= 1;
    if let BodyLine::Expand(number) = body {
        counts.push(*number);
    }
}

/// The innermost node, if there is one, has a child due.
fn is_due(counts: &[u32]) -> bool
    ensures { IsTrue result ↔ IsDue (reverse counts.now) }
{
    counts.is_empty() || counts[counts.len() - 1] > 0
}

/// Takes off the nodes of which no child is due, up to the first of which one is.
pub(crate) fn settle_counts(counts: &mut ArrayVec<u32, 256>)
    ensures due { reverse counts.new.items ≡ popped (reverse counts.old.items) }
    ensures open { IsDue (reverse counts.new.items) }
{
    'closed: while !is_due(counts.as_slice()) {
        let _ = counts.pop();
    }
}

/// What a line comes to if only what is due is counted.
#[derive(Clone, Copy, PartialEq, Eq, Debug)]
pub enum Counted {
    /// It isn't due.
    Bad,
    /// The next line is that of a node, or none follows.
    Nodes,
    /// The next line is one of a sketch.
    Sketch,
}

/// Goes below a child whose sketch this line begins.
#[inline(never)]
fn count_sketch(sketching: &mut Sketching, head: &SketchHead) -> Counted
    ensures due { (due : List ℕ) → CountsTo result (put_due sketching.old.units (BodyLine.Sketch head.now) due) sketching.new due }
    ensures units { sketching.new.units ≡ sketching.old.units }
    ensures few { head.now.prices ≤ 64 → IfSketch result sketching.new }
    ensures nodes { result ≡ Counted.Nodes → ⊥ }
{
    if sketching.count_from(head) {
        Counted::Sketch
    } else {
        Counted::Bad
    }
}

/// Takes the line of a node below the root if the walk has met a fault. It is one if it says what a child at its depth says; then
/// that child is due no more.
#[inline(never)]
pub(crate) fn count_line(
    counts: &mut ArrayVec<u32, 256>,
    sketching: &mut Sketching,
    line: &[u8],
) -> Counted
    requires counts { AreCounts (reverse counts.old.items) }
    requires open { IsDue (reverse counts.old.items) }
    ensures step { CountsTo result (step (nodes_due sketching.old.units (reverse counts.old.items)) line.now) sketching.new (reverse counts.new.items) }
    ensures counts { IfCounted result (AreCounts (reverse counts.new.items)) }
    ensures open { result ≡ Counted.Nodes → IsDue (reverse counts.new.items) }
    ensures few { IfSketch result sketching.new }
    ensures units { sketching.new.units ≡ sketching.old.units }
{
    if counts.is_empty() {
        return Counted::Bad;
    }
    let depth = counts.len() as u8;
    match read_kid_line(depth, line) {
        None => Counted::Bad,
        Some((_, body)) => {
            if let BodyLine::Sketch(head) = &body {
                put_counts(counts, &body);
                return count_sketch(sketching, head);
            }
            put_counts(counts, &body);
            settle_counts(counts);
            Counted::Nodes
        }
    }
}
