ghost use Rattle.std.specs.Prelude.{◌≡◌, ◌+◌, ◌-◌, ◌<◌, ◌≤◌, ◌∷◌, ◌↔◌, List, ℕ, IfSome, IsSomeAnd, IsTrue, None, Some, drop, map, reverse, slice_get, suc};
ghost use Rattle.std.specs.List.{Contains};
ghost use Rattle.arrayvec.specs.ArrayVec.{array_vec_len};
ghost use Rattle.query_base.specs.Asked.{Asked};
ghost use Rattle.query_base.specs.Targets.{Covers};
ghost use Rattle.query_base.specs.declared.claims.Claim.{Claim as AnyClaim};
ghost use Rattle.unmove_gen.specs.Listed.{unmoves};
ghost use Rattle.cert_text.specs.Reading.{HasRoom};
ghost use Rattle.cert_text.specs.Due.{nodes_due, put_due, step};
ghost use Rattle.query_base.specs.Ancestors.{ancestor};
ghost use Rattle.cert_checker.specs.Frames.{OnBody, OnFirst, OnKid, ended, go_on, going, query_of_frame};
ghost use Rattle.cert_checker.specs.Counting.{counts_with};
ghost use Rattle.cert_checker.specs.Framing.{IsListed, IsOpen, IsStack, behind, due_of, end_unmoves_of, popped, walking, with_body};
ghost use Rattle.cert_checker.specs.Stages.{Stepped};
ghost use Rattle.cert_checker.specs.Staging.{IfGood, IfReading, due_after, taken, walk_after};
ghost use Rattle.cert_checker.specs.Kept.{Frame as AnyFrame};
ghost use Rattle.cert_checker.specs.Unused.{nobody};

use crate::left_unmoves::LeftUnmoves;
use crate::reasons::reason_supports;
use crate::refusals::Why;
use crate::sketching::Sketching;
use arrayvec::ArrayVec;
use board_base::{Board, CastleSet, Colour, Odds, Unmove, cmp_unmove};
use cert_text::{BodyLine, read_kid_line};
use query_base::{Query, covers, is_array};
use sketch_text::SketchHead;
use std::cmp::Ordering;
use std::marker::Model;
use unmove_gen::pred;

/// A node some of whose children may be due.
#[derive(Drop)]
pub struct Frame {
    /// The node's query, and its unmoves that no child had.
    pub(crate) left: LeftUnmoves,
    /// How many of its children are due.
    pub(crate) due: u32,
    /// The number of its line.
    pub(crate) line: u32,
}

impl Model for Frame {
    ghost use Rattle.cert_checker.specs.Kept.{Frame as AFrame};

    ghost Value = { AFrame };

    ghost view = { λ f. record { query = f.left.query; left = f.left.left; due = f.due; line = f.line } };
}

/// A query of no man, for places where none stands.
pub(crate) fn no_query() -> Query
    ensures { result ≡ nobody }
{
    Query {
        board: Board::empty(),
        turn: Colour::White,
        odds: Odds::none(),
        held: CastleSet::none(),
        only: None,
        barred: None,
        clock: None,
    }
}

impl Frame {
    /// The node's query.
    fn query(&self) -> Query
        ensures { result ≡ self.now.query }
    {
        self.left.query()
    }
}

impl Default for Frame {
    /// What stands in the unused places of an array of frames.
    fn default() -> Frame {
        Frame {
            left: LeftUnmoves::none(),
            due: 0,
            line: 0,
        }
    }
}

/// The first fault of a walk.
#[derive(Clone, Copy, PartialEq, Eq, Debug)]
pub enum FirstFault {
    /// This unmove of a node's query is the label of none of its children.
    Unlisted { line: u32, unmove: Unmove },
    /// The node on this line doesn't prove its query.
    Unsupported { line: u32, why: Why },
}

/// The first unmove that is left, which then is left no more.
fn take_first(left: &mut LeftUnmoves) -> Option<Unmove>
    ensures first { result ≡ slice_get left.old.left 0 }
    ensures others { left.new.left ≡ drop 1 left.old.left }
    ensures query { left.new.query ≡ left.old.query }
{
    left.next()
}

/// The first unmove that is left of a frame, and the frame with a child less due, of which it then is left no more.
#[inline(always)]
fn next_child(top: Frame) -> (Option<Unmove>, Frame)
    requires { 0 < top.due }
    ensures first { result.0 ≡ slice_get top.left 0 }
    ensures rest { result.1 ≡ record { query = top.query; left = drop 1 top.left; due = top.due - 1; line = top.line } }
{
    let Frame {
        mut left,
        due,
        line,
    } = top;
    let first = take_first(&mut left);
    let rest = Frame {
        left,
        due: due - 1,
        line,
    };
    (first, rest)
}

/// The fault of a frame that has no child due, unless there was one before.
fn left_over(frame: Frame, found: Option<FirstFault>) -> Option<FirstFault>
    ensures { (frames : List AnyFrame) → go_on (walking found frames) (end_unmoves_of frame) ≡ walking result frames }
{
    let mut left = frame.left;
    match found {
        Some(fault) => Some(fault),
        None => match left.next() {
            Some(unmove) => Some(FirstFault::Unlisted {
                line: frame.line,
                unmove,
            }),
            None => None,
        },
    }
}

/// The ancestor so many steps above covers the query. The parent, one step above, comes last.
fn is_covered(frames: &[Frame], steps: u8, query: &Query) -> bool
    ensures { IsTrue result ↔ IsSomeAnd (ancestor (map query_of_frame (reverse frames.now)) steps) (λ a. Covers a query.now) }
{
    let steps = usize::from(steps);
    if steps == 0 || frames.len() < steps {
        return false;
    }
    let frame = &frames[frames.len() - steps];
    let ancestor = frame.query();
    covers(&ancestor, query)
}

/// The fault of a node with this body and query below these frames.
pub(crate) fn body_fault(
    body: &BodyLine,
    query: &Query,
    frames: &[Frame],
    line: u32,
) -> Option<FirstFault>
    ensures { OnBody body.now query.now (reverse frames.now) line (behind result body.now query.now (reverse frames.now) line) }
{
    match body {
        BodyLine::Rule(reason) => {
            if reason_supports(query, reason) {
                None
            } else {
                Some(FirstFault::Unsupported {
                    line,
                    why: Why::Rule,
                })
            }
        }
        BodyLine::Back(steps) => {
            if is_covered(frames, *steps, query) {
                None
            } else {
                Some(FirstFault::Unsupported {
                    line,
                    why: Why::Back,
                })
            }
        }
        BodyLine::Expand(_) => {
            if is_array(query) {
                Some(FirstFault::Unsupported {
                    line,
                    why: Why::Array,
                })
            } else {
                None
            }
        }
        BodyLine::Sketch(_) => None,
    }
}

/// Puts the frame of a node with this body and query on this line onto the others.
pub(crate) fn push_body(
    frames: &mut ArrayVec<Frame, 256>,
    body: &BodyLine,
    query: &Query,
    line: u32,
)
    requires { array_vec_len frames.old < 256 }
    ensures { reverse frames.new.items ≡ with_body body.now query.now (reverse frames.old.items) line }
{
    if let BodyLine::Expand(due) = body {
        frames.push(Frame {
            left: LeftUnmoves::new(query),
            due: *due,
            line,
        });
    }
}

/// What the lines up to that of a node come to.
#[derive(Clone, Copy, PartialEq, Eq, Debug)]
pub enum NodeStep {
    /// The sketch that the line begins makes the units too many, or the line says nothing of a node.
    Bad,
    /// The next line is that of a node, or none follows. This is the first fault of the walk, if there is one.
    Nodes(Option<FirstFault>),
    /// The next line is one of a sketch.
    Sketch(Option<FirstFault>),
}

/// Begins the sketch of a node with this query.
fn begin_sketch(
    sketching: &mut Sketching,
    head: &SketchHead,
    query: &Query,
    fault: Option<FirstFault>,
) -> NodeStep
    ensures due { (due : List ℕ) → put_due sketching.old.units (BodyLine.Sketch head.now) due ≡ due_after result sketching.new due }
    ensures walk { (frames : List AnyFrame) (n : ℕ) → IfGood result (behind fault (BodyLine.Sketch head.now) query.now frames n ≡ walk_after result sketching.new frames) }
    ensures units { sketching.new.units ≡ sketching.old.units }
    ensures reading { head.now.prices ≤ 64 → IfReading result sketching.new }
{
    if sketching.begin(head, query) {
        NodeStep::Sketch(fault)
    } else {
        NodeStep::Bad
    }
}

/// Goes below a node with this body and query on this line, whose fault is given, if it has one.
pub(crate) fn go_below(
    frames: &mut ArrayVec<Frame, 256>,
    sketching: &mut Sketching,
    body: &BodyLine,
    query: &Query,
    fault: Option<FirstFault>,
    line: u32,
) -> NodeStep
    requires { array_vec_len frames.old < 256 }
    ensures frames { reverse frames.new.items ≡ with_body body.now query.now (reverse frames.old.items) line }
    ensures due { (due : List ℕ) → put_due sketching.old.units body.now due ≡ due_after result sketching.new (counts_with body.now due) }
    ensures walk { IfGood result (behind fault body.now query.now (reverse frames.old.items) line ≡ walk_after result sketching.new (reverse frames.new.items)) }
    ensures units { sketching.new.units ≡ sketching.old.units }
    ensures reading { (depth : ℕ) → HasRoom depth body.now → IfReading result sketching.new }
{
    push_body(frames, body, query, line);
    if let BodyLine::Sketch(head) = body {
        return begin_sketch(sketching, head, query, fault);
    }
    NodeStep::Nodes(fault)
}

/// The fault of a child with this label and body, if this is the first unmove that no child had; and the child's query, which
/// if there is a fault may be another.
fn look_at(
    first: Option<Unmove>,
    label: &Unmove,
    body: &BodyLine,
    query: &Query,
    frames: &[Frame],
    line: u32,
) -> (Option<FirstFault>, Query)
    requires { IfSome first (λ u. Contains (unmoves query.now) u) }
    ensures { OnFirst first query.now (reverse frames.now) line label.now body.now (behind result.0 body.now result.1 (reverse frames.now) line) }
{
    let stray = FirstFault::Unsupported {
        line,
        why: Why::Stray,
    };
    match first {
        None => (Some(stray), *query),
        Some(unmove) => match cmp_unmove(label, &unmove) {
            Ordering::Less => (Some(stray), *query),
            Ordering::Greater => (Some(FirstFault::Unlisted { line, unmove }), *query),
            Ordering::Equal => {
                let before = pred(query, &unmove);
                (body_fault(body, &before, frames, line), before)
            }
        },
    }
}

/// Walks a child's line. Its parent's frame was taken off the others.
fn walk_kid(
    top: Frame,
    frames: &mut ArrayVec<Frame, 256>,
    sketching: &mut Sketching,
    line: u32,
    label: &Unmove,
    body: &BodyLine,
) -> NodeStep
    requires due { 0 < top.due }
    requires room { array_vec_len frames.old < 255 }
    requires listed { IsListed top }
    ensures walk { IfGood result (OnKid top (reverse frames.old.items) line label.now body.now (walk_after result sketching.new (reverse frames.new.items))) }
    ensures due { put_due sketching.old.units body.now ((top.due - 1) ∷ map due_of (reverse frames.old.items)) ≡ due_after result sketching.new (map due_of (reverse frames.new.items)) }
    ensures units { sketching.new.units ≡ sketching.old.units }
    ensures stack { HasRoom (suc (array_vec_len frames.old)) body.now → IsStack (reverse frames.old.items) → IsStack (reverse frames.new.items) }
    ensures reading { (depth : ℕ) → HasRoom depth body.now → IfReading result sketching.new }
{
    let query = top.query();
    let (first, rest) = next_child(top);
    frames.push(rest);
    let (found, before) = look_at(first, label, body, &query, frames.as_slice(), line);
    go_below(frames, sketching, body, &before, found, line)
}

/// Takes the line of a node below the root, if the walk has met no fault.
pub(crate) fn take_line(
    frames: &mut ArrayVec<Frame, 256>,
    sketching: &mut Sketching,
    number: u32,
    line: &[u8],
) -> NodeStep
    requires stack { IsStack (reverse frames.old.items) }
    requires open { IsOpen (reverse frames.old.items) }
    ensures stage { (claim : AnyClaim) (q : Asked) → Stepped (step (nodes_due sketching.old.units (map due_of (reverse frames.old.items))) line.now) claim q (going (reverse frames.old.items)) number line.now
        (taken result sketching.new claim q (reverse frames.new.items) number) }
    ensures stack { IfGood result (IsStack (reverse frames.new.items)) }
    ensures reading { IfReading result sketching.new }
{
    let Some(top) = frames.pop() else {
        return NodeStep::Bad;
    };
    let depth = (frames.len() + 1) as u8;
    match read_kid_line(depth, line) {
        None => NodeStep::Bad,
        Some((label, body)) => walk_kid(top, frames, sketching, number, &label, &body),
    }
}

/// The innermost frame, if there is one, has a child due.
fn is_open(frames: &[Frame]) -> bool
    ensures { IsTrue result ↔ IsOpen (reverse frames.now) }
{
    if frames.is_empty() {
        return true;
    }
    let frame = &frames[frames.len() - 1];
    frame.due > 0
}

/// Takes off the frames that have no child due, up to the first that has one. None of their unmoves may be left.
pub(crate) fn settle(
    frames: &mut ArrayVec<Frame, 256>,
    found: Option<FirstFault>,
) -> Option<FirstFault>
    requires { IsStack (reverse frames.old.items) }
    ensures walk { walking result (reverse frames.new.items) ≡ go_on (walking found (reverse frames.old.items)) ended }
    ensures due { map due_of (reverse frames.new.items) ≡ popped (map due_of (reverse frames.old.items)) }
    ensures stack { IsStack (reverse frames.new.items) }
    ensures open { IsOpen (reverse frames.new.items) }
{
    let mut first = found;
    'closed: while !is_open(frames.as_slice()) {
        let Some(frame) = frames.pop() else {
            return first;
        };
        first = left_over(frame, first);
    }
    first
}
