ghost use Rattle.std.specs.Prelude.{◌≡◌, ◌+◌, ◌≤◌, ◌∷◌, ℕ, Err, List, None, map, reverse};
ghost use Rattle.query_base.specs.Asked.{Asked};
ghost use Rattle.query_base.specs.declared.claims.Claim.{Claim as AnyClaim};
ghost use Rattle.cert_text.specs.Certificate.{Lines};
ghost use Rattle.cert_text.specs.Due.{closed, nodes_due, sketch_due};
ghost use Rattle.cert_checker.specs.Answers.{Answer, answer_as};
ghost use Rattle.cert_checker.specs.Counting.{AreCounts};
ghost use Rattle.cert_checker.specs.Framing.{IsOpen, IsStack, due_of, stopped_by, walking};
ghost use Rattle.cert_checker.specs.Frames.{going, sketching as at_sketch};
ghost use Rattle.cert_checker.specs.Sketching.{IsReading, SketchState};
ghost use Rattle.cert_checker.specs.Stages.{Rest, answer_at, answer_by, in_head, nodes};
ghost use Rattle.cert_checker.specs.Staging.{BarsNothing, CanEnd, IfGood, IfReading, IsReady, ReadsMore, rooting, stage_of, stop_at, taken};
ghost use Rattle.cert_checker.specs.declared.frames.FirstFault.{FirstFault as AnyFault};
ghost use Rattle.cert_checker.specs.Kept.{Frame as AnyFrame};

use crate::counting::{Counted, count_frames, count_line, settle_counts};
use crate::frames::{FirstFault, Frame, NodeStep, body_fault, go_below, settle, take_line};
use crate::refusals::{Accepted, Fault};
use crate::sketching::Sketching;
use arrayvec::ArrayVec;
use cert_text::{Head, read_head_line, read_root_line};
use query_base::{Claim, Query, target};

/// How far a check of lines has come: which line comes next, or at which line the text went bad.
#[derive(Clone, Copy, PartialEq, Eq, Debug)]
pub enum Step {
    /// A line of the head, or the root's.
    Heading(Head),
    /// That of a node below the root, or none, if the walk has met no fault.
    Walking(Claim, Query),
    /// A line of a sketch, if the walk has met no fault.
    Sketching(Claim, Query),
    /// That of a node below the root, or none, if the walk has met this fault. From there on only what is due is counted.
    Counting(Claim, Query, FirstFault),
    /// A line of a sketch, if the walk has met this fault.
    Skipping(Claim, Query, FirstFault),
    /// The text went bad at this line.
    Bad(u32),
}

/// The step where the walk stands at these frames, or has met this fault.
fn step_at(
    claim: Claim,
    query: Query,
    found: Option<FirstFault>,
    frames: &ArrayVec<Frame, 256>,
    counts: &mut ArrayVec<u32, 256>,
) -> Step
    requires stack { IsStack (reverse frames.now.items) }
    requires open { IsOpen (reverse frames.now.items) }
    ensures stage { (k : SketchState) → stage_of result k (reverse frames.now.items) (reverse counts.new.items) ≡ nodes claim query (walking found (reverse frames.now.items)) (nodes_due k.units (map due_of (reverse frames.now.items))) }
    ensures ready { (k : SketchState) → IsReady result k (reverse frames.now.items) (reverse counts.new.items) }
{
    match found {
        None => Step::Walking(claim, query),
        Some(found) => {
            count_frames(frames.as_slice(), counts);
            Step::Counting(claim, query, found)
        }
    }
}

/// The step where a sketch is to be read, and the walk has met this fault, if there is one.
#[inline(never)]
fn step_in_sketch(
    claim: Claim,
    query: Query,
    found: Option<FirstFault>,
    frames: &ArrayVec<Frame, 256>,
    counts: &mut ArrayVec<u32, 256>,
) -> Step
    requires { IsStack (reverse frames.now.items) }
    ensures stage { (k : SketchState) (n : ℕ) → stage_of result k (reverse frames.now.items) (reverse counts.new.items) ≡ taken (NodeStep.Sketch found) k claim query (reverse frames.now.items) n }
    ensures ready { (k : SketchState) → IsReading k → IsReady result k (reverse frames.now.items) (reverse counts.new.items) }
{
    match found {
        None => Step::Sketching(claim, query),
        Some(found) => {
            count_frames(frames.as_slice(), counts);
            Step::Skipping(claim, query, found)
        }
    }
}

/// The step after a node's line, number `number`, that comes to this.
fn step_after(
    claim: Claim,
    query: Query,
    line: NodeStep,
    frames: &mut ArrayVec<Frame, 256>,
    counts: &mut ArrayVec<u32, 256>,
    number: u32,
) -> Step
    requires { IfGood line (IsStack (reverse frames.old.items)) }
    ensures rest { (k : SketchState) (n : ℕ) (lines : Lines) (a : Answer) → Rest (stage_of result k (reverse frames.new.items) (reverse counts.new.items)) n lines a
        → Rest (taken line k claim query (reverse frames.old.items) number) n lines a }
    ensures ready { (k : SketchState) → IfReading line k → IsReady result k (reverse frames.new.items) (reverse counts.new.items) }
{
    match line {
        NodeStep::Bad => Step::Bad(number),
        NodeStep::Nodes(fault) => {
            let found = settle(frames, fault);
            step_at(claim, query, found, frames, counts)
        }
        NodeStep::Sketch(found) => step_in_sketch(claim, query, found, frames, counts),
    }
}

/// The step after the root's line.
fn take_root(
    claim: Claim,
    query: Query,
    sketching: &mut Sketching,
    frames: &mut ArrayVec<Frame, 256>,
    counts: &mut ArrayVec<u32, 256>,
    number: u32,
    line: &[u8],
) -> Step
    requires barred { query.barred ≡ None }
    requires first { sketching.old.units ≡ 0 }
    ensures rest { (lines : Lines) (a : Answer) → Rest (stage_of result sketching.new (reverse frames.new.items) (reverse counts.new.items)) (number + 1) lines a → Rest (rooting claim query) number (line.now ∷ lines) a }
    ensures ready { IsReady result sketching.new (reverse frames.new.items) (reverse counts.new.items) }
{
    let Some(body) = read_root_line(line) else {
        return Step::Bad(number);
    };
    let aim = target(&query, &claim);
    frames.clear();
    let fault = body_fault(&body, &aim, frames.as_slice(), number);
    let root = go_below(frames, sketching, &body, &aim, fault, number);
    step_after(claim, query, root, frames, counts, number)
}

/// The step after a line of the head, or the root's.
fn take_head(
    head: &Head,
    sketching: &mut Sketching,
    frames: &mut ArrayVec<Frame, 256>,
    counts: &mut ArrayVec<u32, 256>,
    number: u32,
    line: &[u8],
) -> Step
    requires barred { BarsNothing head.now }
    requires first { sketching.old.units ≡ 0 }
    ensures rest { (lines : Lines) (a : Answer) → Rest (stage_of result sketching.new (reverse frames.new.items) (reverse counts.new.items)) (number + 1) lines a → Rest (in_head head.now) number (line.now ∷ lines) a }
    ensures ready { IsReady result sketching.new (reverse frames.new.items) (reverse counts.new.items) }
{
    if let Head::RootDue(claim, query) = head {
        return take_root(*claim, *query, sketching, frames, counts, number, line);
    }
    match read_head_line(head, line) {
        Some(next) => Step::Heading(next),
        None => Step::Bad(number),
    }
}

/// The step after the line of a node below the root, if the walk has met no fault before.
fn take_node(
    claim: &Claim,
    query: &Query,
    sketching: &mut Sketching,
    frames: &mut ArrayVec<Frame, 256>,
    counts: &mut ArrayVec<u32, 256>,
    number: u32,
    line: &[u8],
) -> Step
    requires stack { IsStack (reverse frames.old.items) }
    requires open { IsOpen (reverse frames.old.items) }
    ensures rest { (lines : Lines) (a : Answer) → Rest (stage_of result sketching.new (reverse frames.new.items) (reverse counts.new.items)) (number + 1) lines a
        → Rest (nodes claim.now query.now (going (reverse frames.old.items)) (nodes_due sketching.old.units (map due_of (reverse frames.old.items)))) number (line.now ∷ lines) a }
    ensures ready { IsReady result sketching.new (reverse frames.new.items) (reverse counts.new.items) }
{
    let node = take_line(frames, sketching, number, line);
    step_after(*claim, *query, node, frames, counts, number)
}

/// The step after a line of a sketch, if the walk has met this fault.
fn step_skipping(
    claim: Claim,
    query: Query,
    found: FirstFault,
    sketching: &mut Sketching,
    counts: &mut ArrayVec<u32, 256>,
) -> Step
    requires counts { AreCounts (reverse counts.old.items) }
    requires few { sketching.old.reading.due.prices ≤ 64 }
    ensures rest { (frames : List AnyFrame) (n : ℕ) (lines : Lines) (a : Answer) → Rest (stage_of result sketching.new frames (reverse counts.new.items)) n lines a
        → Rest (nodes claim query (stopped_by found) (closed sketching.old.reading (reverse counts.old.items))) n lines a }
    ensures ready { (frames : List AnyFrame) → IsReady result sketching.new frames (reverse counts.new.items) }
{
    if !sketching.is_over() {
        return Step::Skipping(claim, query, found);
    }
    sketching.close();
    settle_counts(counts);
    Step::Counting(claim, query, found)
}

/// The step after a line of a sketch, if the walk has met no fault before.
#[inline(never)]
fn take_sketch(
    claim: &Claim,
    query: &Query,
    sketching: &mut Sketching,
    frames: &mut ArrayVec<Frame, 256>,
    counts: &mut ArrayVec<u32, 256>,
    number: u32,
    line: &[u8],
) -> Step
    requires stack { IsStack (reverse frames.old.items) }
    requires reading { IsReading sketching.old }
    ensures rest { (lines : Lines) (a : Answer) → Rest (stage_of result sketching.new (reverse frames.new.items) (reverse counts.new.items)) (number + 1) lines a
        → Rest (nodes claim.now query.now (at_sketch sketching.old.sketched (reverse frames.old.items)) (sketch_due sketching.old.reading (map due_of (reverse frames.old.items)))) number (line.now ∷ lines) a }
    ensures ready { IsReady result sketching.new (reverse frames.new.items) (reverse counts.new.items) }
{
    let Some(fault) = sketching.take(number, line) else {
        return Step::Bad(number);
    };
    if let Some(found) = fault {
        count_frames(frames.as_slice(), counts);
        return step_skipping(*claim, *query, found, sketching, counts);
    }
    if !sketching.is_over() {
        return Step::Sketching(*claim, *query);
    }
    sketching.close();
    step_after(
        *claim,
        *query,
        NodeStep::Nodes(None),
        frames,
        counts,
        number,
    )
}

/// The step after a line of a sketch, if the walk has met this fault before.
#[inline(never)]
fn skip_line(
    claim: &Claim,
    query: &Query,
    found: FirstFault,
    sketching: &mut Sketching,
    counts: &mut ArrayVec<u32, 256>,
    number: u32,
    line: &[u8],
) -> Step
    requires counts { AreCounts (reverse counts.old.items) }
    requires few { sketching.old.reading.due.prices ≤ 64 }
    ensures rest { (frames : List AnyFrame) (lines : Lines) (a : Answer) → Rest (stage_of result sketching.new frames (reverse counts.new.items)) (number + 1) lines a
        → Rest (nodes claim.now query.now (stopped_by found) (sketch_due sketching.old.reading (reverse counts.old.items))) number (line.now ∷ lines) a }
    ensures ready { (frames : List AnyFrame) → IsReady result sketching.new frames (reverse counts.new.items) }
{
    if !sketching.count(line) {
        return Step::Bad(number);
    }
    step_skipping(*claim, *query, found, sketching, counts)
}

/// Takes a line, with its end, if more than children is to be read.
// It stays out of `take`, where a line that is only counted would pay for its variables.
#[inline(never)]
fn take_read(
    step: &mut Step,
    sketching: &mut Sketching,
    frames: &mut ArrayVec<Frame, 256>,
    counts: &mut ArrayVec<u32, 256>,
    number: u32,
    line: &[u8],
)
    requires reads { ReadsMore step.old }
    requires ready { IsReady step.old sketching.old (reverse frames.old.items) (reverse counts.old.items) }
    ensures rest { (lines : Lines) (a : Answer) → Rest (stage_of step.new sketching.new (reverse frames.new.items) (reverse counts.new.items)) (number + 1) lines a
        → Rest (stage_of step.old sketching.old (reverse frames.old.items) (reverse counts.old.items)) number (line.now ∷ lines) a }
    ensures ready { IsReady step.new sketching.new (reverse frames.new.items) (reverse counts.new.items) }
{
    match step {
        Step::Heading(head) => {
            let next = take_head(head, sketching, frames, counts, number, line);
            *step = next;
        }
        Step::Walking(claim, query) => {
            let next = take_node(claim, query, sketching, frames, counts, number, line);
            *step = next;
        }
        Step::Sketching(claim, query) => {
            let next = take_sketch(claim, query, sketching, frames, counts, number, line);
            *step = next;
        }
        Step::Skipping(claim, query, found) => {
            let next = skip_line(claim, query, *found, sketching, counts, number, line);
            *step = next;
        }
        Step::Counting(_, _, _) | Step::Bad(_) => {}
    }
}

/// The step behind a line that was counted and is no node's: the lines of a sketch come next, or the text goes bad at this line.
// It is changed in its place and out of the way: a line of a node would pay for a second step.
#[inline(never)]
fn stop_counting(step: &mut Step, counted: Counted, number: u32)
    ensures sketch { (claim : AnyClaim) (q : Asked) (found : AnyFault) → counted ≡ Counted.Sketch → step.old ≡ Step.Counting claim q found → step.new ≡ Step.Skipping claim q found }
    ensures bad { counted ≡ Counted.Bad → step.new ≡ Step.Bad number }
{
    match counted {
        Counted::Nodes => {}
        Counted::Sketch => {
            if let Step::Counting(claim, query, found) = step {
                *step = Step::Skipping(*claim, *query, *found);
            }
        }
        Counted::Bad => *step = Step::Bad(number),
    }
}

/// Takes a line, with its end. Where only children are counted, the step stays in its place.
#[inline(always)]
pub(crate) fn take(
    step: &mut Step,
    sketching: &mut Sketching,
    frames: &mut ArrayVec<Frame, 256>,
    counts: &mut ArrayVec<u32, 256>,
    number: u32,
    line: &[u8],
)
    requires { IsReady step.old sketching.old (reverse frames.old.items) (reverse counts.old.items) }
    ensures rest { (lines : Lines) (a : Answer) → Rest (stage_of step.new sketching.new (reverse frames.new.items) (reverse counts.new.items)) (number + 1) lines a
        → Rest (stage_of step.old sketching.old (reverse frames.old.items) (reverse counts.old.items)) number (line.now ∷ lines) a }
    ensures ready { IsReady step.new sketching.new (reverse frames.new.items) (reverse counts.new.items) }
{
    match step {
        Step::Counting(_, _, _) => {
            let counted = count_line(counts, sketching, line);
            match counted {
                Counted::Nodes => {}
                Counted::Sketch | Counted::Bad => stop_counting(step, counted, number),
            }
        }
        _ => take_read(step, sketching, frames, counts, number, line),
    }
}

/// The step where the next line is none of a certificate.
pub(crate) fn stop(step: &Step, number: u32) -> Step
    ensures { result ≡ stop_at step.now number }
{
    match *step {
        Step::Bad(line) => Step::Bad(line),
        _ => Step::Bad(number),
    }
}

fn fault_of(found: FirstFault) -> Fault
    ensures { (claim : AnyClaim) (q : Asked) (n : ℕ) → answer_as (Err result) ≡ answer_by claim q n (stopped_by found) }
{
    match found {
        FirstFault::Unlisted { line, unmove } => Fault::Unlisted { line, unmove },
        FirstFault::Unsupported { line, why } => Fault::Unsupported { line, why },
    }
}

/// The answer if no line follows.
pub(crate) fn answer(
    step: &Step,
    frames: &[Frame],
    counts: &[u32],
    number: u32,
) -> Result<Accepted, Fault>
    requires { CanEnd step.now (reverse frames.now) (reverse counts.now) }
    ensures { (k : SketchState) → answer_as result ≡ answer_at (stage_of step.now k (reverse frames.now) (reverse counts.now)) number }
{
    match *step {
        Step::Walking(claim, query) => {
            if frames.is_empty() {
                Ok(Accepted { claim, query })
            } else {
                Err(Fault::BadText { line: number })
            }
        }
        Step::Counting(_, _, found) => {
            if counts.is_empty() {
                Err(fault_of(found))
            } else {
                Err(Fault::BadText { line: number })
            }
        }
        Step::Bad(line) => Err(Fault::BadText { line }),
        _ => Err(Fault::BadText { line: number }),
    }
}
