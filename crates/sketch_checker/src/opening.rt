ghost use Rattle.std.specs.Prelude.{◌≡◌, ◌↔◌, ◌<◌, ◌+◌, ◌&&◌, ◌∷◌, Bool, IfErr, IfOk, IsTrue, List, None, OnErr, OnOk, length, nat_lt};
ghost use Rattle.sketch_text.specs.Trees.{Line as ALine, of_node};
ghost use Rattle.sketch_proof.specs.Proofs.{Setting as ASetting};
ghost use Rattle.sketch_checker.specs.Able.{IsAble};
ghost use Rattle.sketch_checker.specs.Dues.{due_by};
ghost use Rattle.sketch_checker.specs.LineWalk.{IsStop, OnLine, OnNode, stopped};
ghost use Rattle.sketch_checker.specs.Placed.{IsNext, IsPlacedAt, IsWordAt, announced_by};
ghost use Rattle.sketch_checker.specs.Steering.{AllAble, IsOpen, OpensAs};
ghost use Rattle.sketch_checker.specs.TreeWalk.{stray};
ghost use Rattle.sketch_checker.specs.Walks.{Completes, CompletesOpened};

use crate::dues::{Due, Left, next_due};
use crate::faults::SketchFault;
use crate::frames::{Frame, Frames};
use figures::Sketch;
use sketch_text::{End, Label, SketchNode};
use std::marker::Model;

/// The node on this line, which was read: how many lines of marks are still to come, its end, and its sketch with the marks so far.
#[derive(Drop)]
pub(crate) struct Opened {
    pub(crate) line: u32,
    pub(crate) marks: u8,
    pub(crate) end: End,
    pub(crate) sketch: Sketch,
}

impl Model for Opened {
    ghost use Rattle.sketch_checker.specs.Walks.{Opened as AnOpened};

    ghost Value = { AnOpened };

    ghost view = { λ o. record { line = o.line; marks = o.marks; end = o.end; sketch = o.sketch } };
}

/// How many nodes follow below one with this end.
fn announced_by(end: End) -> u16
    ensures { result ≡ announced_by end }
{
    match end {
        End::Void => 0,
        End::Closed(_) => 0,
        End::Steps(count) => count,
        End::Split(_) => 3,
    }
}

/// Whether the labels are the same.
fn is_same(one: Label, other: Label) -> bool
    ensures { IsTrue result ↔ (one ≡ other) }
{
    one == other
}

/// The node that is due first, if it has the label of this line, and the others.
fn labelled(left: Left, number: u32, label: Label) -> Result<(Due, Left), SketchFault>
    ensures found { IfOk result (λ r. (due_by left ≡ r.0 ∷ due_by r.1) × (label ≡ r.0.label)) }
    ensures stray { IfErr result (λ f. (f ≡ SketchFault.Stray number) × (IsNext (due_by left) label → ⊥)) }
{
    let (first, others) = next_due(left);
    match first {
        Some(due) => {
            if is_same(label, due.label) {
                Ok((due, others))
            } else {
                Err(SketchFault::Stray { line: number })
            }
        }
        None => Err(SketchFault::Stray { line: number }),
    }
}

/// Whether a node with this end would announce others below 64.
fn is_too_deep(frames: &Frames, end: End) -> bool
    ensures { result ≡ (nat_lt 64 (length frames.now) && nat_lt 0 (announced_by end)) }
{
    let deep = frames.len() > 64;
    deep & (announced_by(end) > 0)
}

/// Opens the node of a line below this frame, which was taken off the others.
fn open_below(
    frames: &mut Frames,
    frame: Frame,
    number: u32,
    node: SketchNode,
) -> Result<Opened, SketchFault>
    requires open { 0 < frame.announced }
    requires room { length frames.old < 65 }
    ensures opened { IfOk result (λ o. (g : ASetting) (lines : List ALine) → CompletesOpened g o frames.new lines ↔ Completes g (frame ∷ frames.old) (of_node node ∷ lines)) }
    ensures kept { IfOk result (λ o. o.end ≡ node.end) }
    ensures deep { OnOk result (length frames.new ≡ length frames.old + 1) }
    ensures able { IfOk result (λ x. (o : List Bool) → AllAble o (frame ∷ frames.old) → IsAble o x.sketch × AllAble o frames.new) }
    ensures due { OnOk result (IsNext frame.due node.label) }
    ensures stray { IfErr result (λ f. (f ≡ SketchFault.Stray number) × (IsNext frame.due node.label → ⊥)) }
    ensures node { IfOk result (λ o. (g : ASetting) → OpensAs g o frames.new (OnNode frame.due g frame frames.old number node)) }
    ensures stopped { OnErr result ((g : ASetting) → OnNode frame.due g frame frames.old number node (stopped number stray)) }
    ensures refused { OnErr result ((g : ASetting) (lines : List ALine) → Completes g (frame ∷ frames.old) (of_node node ∷ lines) → ⊥) }
{
    let line = frame.line;
    let announced = frame.announced;
    match labelled(frame.left, number, node.label) {
        Ok((due, left)) => {
            frames.push(Frame {
                line,
                announced: announced - 1,
                left,
            });
            Ok(Opened {
                line: number,
                marks: node.marks,
                end: node.end,
                sketch: due.sketch,
            })
        }
        Err(fault) => Err(fault),
    }
}

/// Opens the node of a line, if it is the one that is due.
pub(crate) fn open(
    frames: &mut Frames,
    number: u32,
    node: SketchNode,
) -> Result<Opened, SketchFault>
    requires { IsOpen frames.old }
    ensures opened { IfOk result (λ o. (g : ASetting) (lines : List ALine) → CompletesOpened g o frames.new lines ↔ Completes g frames.old (of_node node ∷ lines)) }
    ensures room { IfOk result (λ o. 0 < announced_by o.end → length frames.new < 65) }
    ensures able { IfOk result (λ x. (o : List Bool) → AllAble o frames.old → IsAble o x.sketch × AllAble o frames.new) }
    ensures placed { OnOk result (IsPlacedAt None frames.old (of_node node)) }
    ensures word { IfErr result (IsWordAt None frames.old (of_node node)) }
    ensures line { IfOk result (λ o. (g : ASetting) → OpensAs g o frames.new (OnLine g None frames.old number (of_node node))) }
    ensures stopped { IfErr result (λ f. (g : ASetting) → IsStop f (OnLine g None frames.old number (of_node node))) }
    ensures refused { OnErr result ((g : ASetting) (lines : List ALine) → Completes g frames.old (of_node node ∷ lines) → ⊥) }
{
    if is_too_deep(frames, node.end) {
        return Err(SketchFault::Misplaced);
    }
    let _ = frames.len();
    match frames.pop() {
        Some(frame) => open_below(frames, frame, number, node),
        None => Err(SketchFault::Misplaced),
    }
}
